// What a message of Issue 3 answers: the response to a request of ours, services that are kept, or replies that are laid.
ghost use Rattle.std.specs.Prelude.{◌≡◌, length};
ghost use Rattle.wire.specs.Bytes.{part};
ghost use Rattle.message3.specs.Reading.{read_of3};
ghost use Rattle.mixed.specs.Reading.{from_three};
ghost use Rattle.mixed.specs.Reaction.{reaction3};
ghost use Rattle.mixed.specs.Receiving.{is_answer3, response_to3, list_answered3, settled3, laid3, kept3};
ghost use Rattle.mixed.specs.Receiving.{any_outcome_of, any_output_of, any_list_of, any_words_of};

use crate::reactions::{Reaction3, Room};
use crate::{AnyReceived, answers, keeping, laying, reacting};
use message::Own;
use message3::{Header3, Message3, Reading3, Stamp};
use platform::{NOT_AWAITED, Standing};
use table::Sections;

// A message in Issue 3's form, read by Issue 3: the response to a request of ours, or any other.
pub(crate) fn of_three(
    own: Own,
    stamp: Stamp,
    composite: u32,
    partners: &[u64],
    ours: &[u64],
    table: &[u8],
    s: Sections,
    index: &[u64],
    standing: Standing,
    list: &mut [u64],
    blocks: &mut [u64],
    message: &[u8],
    out: &mut [u8],
) -> AnyReceived
    ensures answer { result
        ≡ any_outcome_of own.platform partners.now ours.now table.now s index.now standing
        list.old blocks.old message.now (length out.old)
        (from_three (read_of3 own.platform message.now)) }
    ensures output { out.new
        ≡ any_output_of own.platform stamp composite partners.now ours.now table.now s index.now standing
        blocks.old message.now out.old (from_three (read_of3 own.platform message.now)) }
    ensures list { list.new
        ≡ any_list_of own.platform table.now s index.now list.old message.now
        (from_three (read_of3 own.platform message.now)) }
    ensures blocks { blocks.new
        ≡ any_words_of own.platform partners.now ours.now table.now s index.now standing
        blocks.old message.now (length out.old) (from_three (read_of3 own.platform message.now)) }
{
    match message3::read(own, message) {
        Reading3::Refused(number) => answers::refused(standing, number),
        Reading3::Read {
            header,
            message: kind,
            start,
            length,
        } => {
            let found = reacting::look_up(table, s, index, header, kind);
            if is_answer(table, found, kind) {
                response_to(list, found, standing, header, start, length)
            } else {
                reacted(
                    own, stamp, composite, partners, ours, table, s, found, standing, header, kind,
                    start, length, message, blocks, out,
                )
            }
        }
    }
}

// Any message that is no response, with the operation that was looked up for it.
pub(crate) fn reacted(
    own: Own,
    stamp: Stamp,
    composite: u32,
    partners: &[u64],
    ours: &[u64],
    table: &[u8],
    s: Sections,
    found: Option<(u16, usize)>,
    standing: Standing,
    header: Header3,
    kind: Message3,
    start: usize,
    size: usize,
    message: &[u8],
    blocks: &mut [u64],
    out: &mut [u8],
) -> AnyReceived
    ensures answer { result
        ≡ settled3 partners.now ours.now standing header
        (reaction3 own.platform ours.now table.now s found standing header kind start size)
        (part message.now start size) blocks.old (length out.old) }
    ensures output { out.new
        ≡ laid3 own.platform stamp composite partners.now ours.now header
        (reaction3 own.platform ours.now table.now s found standing header kind start size)
        (part message.now start size) blocks.old out.old }
    ensures blocks { blocks.new
        ≡ kept3 partners.now ours.now header
        (reaction3 own.platform ours.now table.now s found standing header kind start size)
        (part message.now start size) blocks.old (length out.old) }
{
    let reaction = reacting::reaction_to(
        own, ours, table, s, found, standing, header, kind, start, size,
    );
    let payload = wire::part(message, start, size);
    settled(
        own, stamp, composite, partners, ours, standing, header, reaction, payload, blocks, out,
    )
}

// Services are kept, or replies laid; where there is no room for them nothing changes.
pub(crate) fn settled(
    own: Own,
    stamp: Stamp,
    composite: u32,
    partners: &[u64],
    ours: &[u64],
    standing: Standing,
    header: Header3,
    reaction: Reaction3,
    payload: &[u8],
    blocks: &mut [u64],
    out: &mut [u8],
) -> AnyReceived
    ensures answer { result
        ≡ settled3 partners.now ours.now standing header reaction payload.now blocks.old
        (length out.old) }
    ensures output { out.new
        ≡ laid3 own.platform stamp composite partners.now ours.now header reaction payload.now
        blocks.old out.old }
    ensures blocks { blocks.new
        ≡ kept3 partners.now ours.now header reaction payload.now blocks.old
        (length out.old) }
{
    let deed = reaction.deed;
    match laying::room_for(ours, deed, out.len()) {
        Room::Short(number) => answers::refused(standing, number),
        Room::Enough(written) => {
            let number = keeping::keep(partners, header.platform, deed, payload, blocks);
            if number == 0 {
                laying::lay(own, stamp, composite, ours, deed, written, out);
                answers::taken(header, reaction, written)
            } else {
                answers::refused(standing, number)
            }
        }
    }
}

pub(crate) fn is_answer(table: &[u8], found: Option<(u16, usize)>, message: Message3) -> bool
    ensures { result ≡ is_answer3 table.now found message }
{
    match message {
        Message3::Operation => platform::is_sent(table, found),
        _ => false,
    }
}

// Its request is pending no more once it is delivered.
pub(crate) fn response_to(
    list: &mut [u64],
    found: Option<(u16, usize)>,
    standing: Standing,
    header: Header3,
    start: usize,
    length: usize,
) -> AnyReceived
    ensures answer { result ≡ response_to3 list.old found standing header start length }
    ensures list { list.new ≡ list_answered3 list.old header }
{
    if pending::take_response(list, header.sequence, header.id, header.platform as u32) {
        answers::delivered(found, standing, header, start, length)
    } else {
        answers::refused(standing, NOT_AWAITED)
    }
}
