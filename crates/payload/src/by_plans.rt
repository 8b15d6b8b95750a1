// 02, request 13: payloads unpacked and packed by plans that were laid out for the table. Any words are plans; without any, all goes
// as on sections.
ghost use Rattle.std.specs.Prelude.{◌≡◌, length};
ghost use Rattle.walk.specs.Walk.{start, left, walk};
ghost use Rattle.walk.specs.Planned.{plan_tree, type_by};
ghost use Rattle.unpack.specs.Reading.{reader};
ghost use Rattle.pack.specs.Writing.{writer};
ghost use Rattle.payload.specs.Calls.{answered_tree, left_over_by};
ghost use Rattle.payload.specs.ByPlans.{answered_on};

use crate::Answer;
use table::Sections;

// Unpacks a payload of the type of that number by its plan alone, for a caller that has seen that there is one: no sections are asked for.
pub fn unpack_plan(
    table: &[u8],
    plans: &[u64],
    number: u16,
    payload: &[u8],
    words: &mut [u64],
) -> Answer
    ensures value { result ≡ answered_tree (reader payload.now) (length payload.now)
        (plan_tree table.now plans.now number) (length words.old) }
    ensures words_after { words.new ≡ left_over_by result words.old
        (left (walk (reader payload.now) (plan_tree table.now plans.now number) start words.old)) }
{
    let room = words.len();
    let walked = unpack::read_plan(table, plans, number, payload, words);
    crate::read_to(payload.len(), room, walked)
}

// The same on sections, for a type that has no plan: members and elements that have one go by it.
pub fn unpack_parts(
    table: &[u8],
    s: Sections,
    plans: &[u64],
    number: u16,
    payload: &[u8],
    words: &mut [u64],
) -> Answer
    ensures value { result ≡ answered_on (reader payload.now) (length payload.now) table.now s number
        (type_by plans.now table.now s number) (length words.old) }
    ensures words_after { words.new ≡ left_over_by result words.old
        (left (walk (reader payload.now) (type_by plans.now table.now s number) start words.old)) }
{
    if table::within(table, s) {
        if table::entries::is_type(s, number) {
            unpack_type(table, s, plans, number, payload, words)
        } else {
            Answer::Refused(crate::NO_SUCH_TYPE)
        }
    } else {
        Answer::Refused(table::CUT_SHORT)
    }
}

fn unpack_type(
    table: &[u8],
    s: Sections,
    plans: &[u64],
    number: u16,
    payload: &[u8],
    words: &mut [u64],
) -> Answer
    ensures value { result ≡ answered_tree (reader payload.now) (length payload.now)
        (type_by plans.now table.now s number) (length words.old) }
    ensures words_after { words.new ≡ left_over_by result words.old
        (left (walk (reader payload.now) (type_by plans.now table.now s number) start words.old)) }
{
    let room = words.len();
    let walked = unpack::read_type(table, s, plans, number, payload, words);
    crate::read_to(payload.len(), room, walked)
}

// Packs the words as a payload of the type of that number by its plan alone, likewise.
pub fn pack_plan(table: &[u8], plans: &[u64], number: u16, words: &[u64], out: &mut [u8]) -> Answer
    ensures value { result ≡ answered_tree (writer words.now) (length words.now)
        (plan_tree table.now plans.now number) (length out.old) }
    ensures out_after { out.new ≡ left_over_by result out.old
        (left (walk (writer words.now) (plan_tree table.now plans.now number) start out.old)) }
{
    let room = out.len();
    let walked = pack::write_plan(table, plans, number, words, out);
    crate::written_to(words.len(), room, walked)
}

// The same on sections, for a type that has no plan: members and elements that have one go by it.
pub fn pack_parts(
    table: &[u8],
    s: Sections,
    plans: &[u64],
    number: u16,
    words: &[u64],
    out: &mut [u8],
) -> Answer
    ensures value { result ≡ answered_on (writer words.now) (length words.now) table.now s number
        (type_by plans.now table.now s number) (length out.old) }
    ensures out_after { out.new ≡ left_over_by result out.old
        (left (walk (writer words.now) (type_by plans.now table.now s number) start out.old)) }
{
    if table::within(table, s) {
        if table::entries::is_type(s, number) {
            pack_type(table, s, plans, number, words, out)
        } else {
            Answer::Refused(crate::NO_SUCH_TYPE)
        }
    } else {
        Answer::Refused(table::CUT_SHORT)
    }
}

fn pack_type(
    table: &[u8],
    s: Sections,
    plans: &[u64],
    number: u16,
    words: &[u64],
    out: &mut [u8],
) -> Answer
    ensures value { result ≡ answered_tree (writer words.now) (length words.now)
        (type_by plans.now table.now s number) (length out.old) }
    ensures out_after { out.new ≡ left_over_by result out.old
        (left (walk (writer words.now) (type_by plans.now table.now s number) start out.old)) }
{
    let room = out.len();
    let walked = pack::write_type(table, s, plans, number, words, out);
    crate::written_to(words.len(), room, walked)
}
