// 02, request 13, as the C interface has it: a table's plans laid out in lent words, and payloads unpacked and packed by plans. Any words
// are plans. A type that has one goes by it alone, so that its call pays for no sections; any other goes as on sections.
ghost use Rattle.std.specs.Prelude.{◌≡◌};
ghost use Rattle.nyrkovash.specs.PlanCalls.{plans_length_number, plans_length_given, plans_number, plans_left};
ghost use Rattle.nyrkovash.specs.PlanCalls.{unpack_number_by, unpack_words_by, unpack_walked_by, pack_number_by, pack_bytes_by, pack_walked_by};

use crate::payloads;
use crate::payloads::WALKED_WORDS;
use table::SECTIONS_WORDS;

// How many words the plans of a table can take: 30 for sections that do not lie in the table, or 0 and the number.
#[unsafe(no_mangle)]
pub extern "C" fn nyr_plans_length(
    table: &[u8],
    sections: &[u64; SECTIONS_WORDS],
    words: &mut usize,
) -> u32
    ensures value { result ≡ plans_length_number table.now sections.now }
    ensures words_after { words.new ≡ plans_length_given table.now sections.now words.old }
{
    let s = table::sections_in(sections);
    match plan::length_in(table, s) {
        Err(refusal) => refusal.number(),
        Ok(count) => {
            *words = count;
            0
        }
    }
}

// Lays a table's plans out: 30, 10 where the words are fewer than `nyr_plans_length` says, or 0.
#[unsafe(no_mangle)]
pub extern "C" fn nyr_plans(
    table: &[u8],
    sections: &[u64; SECTIONS_WORDS],
    plans: &mut [u64],
) -> u32
    ensures value { result ≡ plans_number table.now sections.now plans.old }
    ensures plans_after { plans.new ≡ plans_left table.now sections.now plans.old }
{
    let s = table::sections_in(sections);
    match plan::lay(table, s, plans) {
        Err(refusal) => refusal.number(),
        Ok(()) => 0,
    }
}

// Unpacks a payload of the table's type of that number, by its plan where it has one: 40 to 43, 45, without a plan 30, 32 and 44 too, or
// 0 and how many words were given.
#[unsafe(no_mangle)]
pub extern "C" fn nyr_unpack_by(
    table: &[u8],
    sections: &[u64; SECTIONS_WORDS],
    plans: &[u64],
    number: u16,
    payload: &[u8],
    words: &mut [u64],
    walked: &mut [u64; WALKED_WORDS],
) -> u32
    ensures value { result
        ≡ unpack_number_by plans.now table.now sections.now number payload.now words.old }
    ensures words_after { words.new
        ≡ unpack_words_by plans.now table.now sections.now number payload.now words.old }
    ensures walked_after { walked.new
        ≡ unpack_walked_by plans.now table.now sections.now number payload.now words.old
        walked.old }
{
    if walk::plans::is_planned(plans, number) {
        let answer = payload::unpack_plan(table, plans, number, payload, words);
        payloads::told(answer, walked)
    } else {
        let s = table::sections_in(sections);
        let answer = payload::unpack_parts(table, s, plans, number, payload, words);
        payloads::told(answer, walked)
    }
}

// Packs the words as a payload of the table's type of that number, by its plan where it has one: the numbers of `nyr_unpack_by`, or 0 and
// how many bytes were given.
#[unsafe(no_mangle)]
pub extern "C" fn nyr_pack_by(
    table: &[u8],
    sections: &[u64; SECTIONS_WORDS],
    plans: &[u64],
    number: u16,
    words: &[u64],
    out: &mut [u8],
    walked: &mut [u64; WALKED_WORDS],
) -> u32
    ensures value { result
        ≡ pack_number_by plans.now table.now sections.now number words.now out.old }
    ensures out_after { out.new
        ≡ pack_bytes_by plans.now table.now sections.now number words.now out.old }
    ensures walked_after { walked.new
        ≡ pack_walked_by plans.now table.now sections.now number words.now out.old
        walked.old }
{
    if walk::plans::is_planned(plans, number) {
        let answer = payload::pack_plan(table, plans, number, words, out);
        payloads::told(answer, walked)
    } else {
        let s = table::sections_in(sections);
        let answer = payload::pack_parts(table, s, plans, number, words, out);
        payloads::told(answer, walked)
    }
}
