// What a platform knows of the others, and what it owes them (01, "Platform states and replies"; 000, 6.3): one call reads
// a message, notes the state it tells, and writes the owed replies one behind another; or delivers the response to a request that
// is pending (02, 1). A refused call (1 to 10, 61, and 30 to 33 for the type table) changes no state, own number, list or output
// byte.
#![tactic(auto)]

mod answering;
mod reacting;
mod reactions;
mod replies;

ghost use Rattle.std.specs.Prelude.{◌≡◌, length};
ghost use Rattle.platform.specs.Receiving.{fresh_standing, refused, taken, answered, laid_out, outcome_of, output_of, list_of};
ghost use Rattle.platform.specs.Receiving.{outcome_in, output_in, list_in, index_of, received_of, left_of, list_after};
ghost use Rattle.platform.specs.Receiving.{sections_outcome, sections_output, sections_list};
ghost use Rattle.platform.specs.Heard.{payload_heard};

pub use answering::{NOT_AWAITED, entry_of, is_sent};
use message::{Header, Own, Reading};
pub use reacting::noted;
pub use reactions::{Heard, Owed, REPLY_LENGTH, Reaction, Reply, Standing};
pub use replies::ALL_DATA;
use table::{CUT_SHORT, Sections};

#[derive(Clone, Copy)]
pub enum Noting {
    Refused(u32),
    // The replies are owed to the header's platform.
    Noted {
        header: Header,
        heard: Heard,
        written: usize,
    },
    // The response to a request that was pending: its operation's entry, and its payload, `length` bytes of the message from `start`
    // on. Nothing is owed.
    Response {
        header: Header,
        entry: u16,
        start: usize,
        length: usize,
    },
}

#[derive(Clone, Copy)]
pub struct Received {
    pub standing: Standing,
    pub answer: Noting,
}

// This platform is UP, the others are DOWN, and own numbers start at 0.
pub fn fresh(own: Own) -> Standing
    ensures { result ≡ fresh_standing own.platform }
{
    Standing {
        states: states::fresh(own),
        next: 0,
    }
}

// Reads a message, notes the state that it tells, and writes the owed replies at the output's start; a response frees its place of
// the list.
pub fn receive(
    own: Own,
    table: &[u8],
    standing: Standing,
    list: &mut [u64],
    message: &[u8],
    out: &mut [u8],
) -> Received
    ensures answer { result
        ≡ received_of own.platform table.now standing list.old message.now (length out.old) }
    ensures output { out.new ≡ left_of own.platform table.now standing message.now out.old }
    ensures list { list.new ≡ list_after own.platform table.now list.old message.now }
{
    match types::check(table) {
        Err(refusal) => refused(standing, refusal.number()),
        Ok(s) => receive_indexed(own, table, s, standing, list, message, out),
    }
}

// The same on a table that was checked before: its bytes, the sections that the check handed back, and the index of its operations.
pub fn receive_checked(
    own: Own,
    table: &[u8],
    s: Sections,
    index: &[u64],
    standing: Standing,
    list: &mut [u64],
    message: &[u8],
    out: &mut [u8],
) -> Received
    ensures answer { result
        ≡ sections_outcome own.platform table.now s index.now standing list.old message.now
        (length out.old) }
    ensures output { out.new
        ≡ sections_output own.platform table.now s index.now standing message.now out.old }
    ensures list { list.new
        ≡ sections_list own.platform table.now s index.now list.old message.now }
{
    if table::within(table, s) {
        receive_within(own, table, s, index, standing, list, message, out)
    } else {
        refused(standing, CUT_SHORT)
    }
}

// The same where the sections are known to lie in the table: it does not ask.
pub fn receive_within(
    own: Own,
    table: &[u8],
    s: Sections,
    index: &[u64],
    standing: Standing,
    list: &mut [u64],
    message: &[u8],
    out: &mut [u8],
) -> Received
    ensures answer { result
        ≡ outcome_in own.platform table.now s index.now standing list.old message.now
        (length out.old) }
    ensures output { out.new
        ≡ output_in own.platform table.now s index.now standing message.now out.old }
    ensures list { list.new ≡ list_in own.platform table.now s index.now list.old message.now }
{
    let reading = message::read(own, message);
    let found = reacting::look_up(table, s, index, reading);
    settled(own, table, s, found, standing, list, reading, out)
}

// The payload of an operation that was heard, as a part of its message; empty for anything else.
pub fn payload(message: &[u8], heard: Heard) -> &[u8]
    ensures { result.now ≡ payload_heard message.now heard }
{
    match heard {
        Heard::Operation { start, length, .. } => wire::part(message, start, length),
        _ => &message[..0],
    }
}

// A table that was just checked has no index yet.
fn receive_indexed(
    own: Own,
    table: &[u8],
    s: Sections,
    standing: Standing,
    list: &mut [u64],
    message: &[u8],
    out: &mut [u8],
) -> Received
    ensures answer { result
        ≡ outcome_in own.platform table.now s (index_of table.now s) standing list.old message.now
        (length out.old) }
    ensures output { out.new
        ≡ output_in own.platform table.now s (index_of table.now s) standing message.now out.old }
    ensures list { list.new
        ≡ list_in own.platform table.now s (index_of table.now s) list.old message.now }
{
    let mut index = [0u64; 1024];
    operations::lay_index(table, s.operations.at, s.operations.count, &mut index);
    receive_within(own, table, s, &index, standing, list, message, out)
}

fn settled(
    own: Own,
    table: &[u8],
    s: Sections,
    found: Option<(u16, usize)>,
    standing: Standing,
    list: &mut [u64],
    reading: Reading,
    out: &mut [u8],
) -> Received
    ensures answer { result
        ≡ outcome_of own.platform table.now s found standing list.old reading (length out.old) }
    ensures output { out.new ≡ output_of own.platform table.now s found standing reading out.old }
    ensures list { list.new ≡ list_of table.now found list.old reading }
{
    match reading {
        Reading::Refused(number) => refused(standing, number),
        Reading::Read {
            header,
            message,
            start,
            length,
        } => {
            if answering::is_answer(table, found, message) {
                answering::response_to(list, found, standing, header, start, length)
            } else {
                let reaction = reacting::reaction_to(
                    own, table, s, found, standing, header, message, start, length,
                );
                answered(own, standing, header, reaction, out)
            }
        }
    }
}

// The state is noted only where all replies fit.
fn answered(
    own: Own,
    standing: Standing,
    header: Header,
    reaction: Reaction,
    out: &mut [u8],
) -> Received
    ensures answer { result ≡ answered standing header reaction (length out.old) }
    ensures output { out.new ≡ laid_out own.platform reaction out.old }
{
    let owed = reaction.owed;
    let written = replies::length_of(owed);
    if out.len() < written {
        refused(standing, message::NO_ROOM)
    } else {
        replies::lay(own, owed, out);
        taken(header, reaction, written)
    }
}

fn taken(header: Header, reaction: Reaction, written: usize) -> Received
    ensures { result ≡ taken header reaction written }
{
    let standing = reaction.standing;
    let heard = reaction.heard;
    Received {
        standing,
        answer: Noting::Noted {
            header,
            heard,
            written,
        },
    }
}

pub(crate) fn refused(standing: Standing, number: u32) -> Received
    ensures { result ≡ refused standing number }
{
    Received {
        standing,
        answer: Noting::Refused(number),
    }
}
