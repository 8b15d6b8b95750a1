// Partners of both issues (02, request 8): a message is read by its sender's issue, version number included. Who speaks Issue 3 is
// told by `partners`; a message of Issue 6 is what `message` reads, one of Issue 3 what `message3` reads, and nothing is both.
#![tactic(auto)]

mod answers;
mod keeping;
mod laying;
mod ours;
mod reacting;
mod reactions;
mod reader;
mod receiving;
mod replies;
mod telling;

ghost use Rattle.std.specs.Prelude.{◌≡◌, length};
ghost use Rattle.types.specs.Table.{checked};
ghost use Rattle.platform.specs.Receiving.{index_of};
ghost use Rattle.mixed.specs.Receiving.{any_outcome, any_output, any_list, any_words};
ghost use Rattle.mixed.specs.Tables.{sections_answer, sections_out, sections_pending, sections_words, answer_if, out_if, pending_if, words_if};

use message::{Header, Message, Own};
use message3::{Header3, Message3, Stamp};
use platform::{Heard, Standing};
pub use reactions::{Deed, Heard3, Reaction3};
pub use reader::{form_of, payload, read};
use table::{CUT_SHORT, Sections};

// Which issue a message is read by, its sender's, or the number that refuses one in the form of the issue that its sender does not speak.
#[derive(Clone, Copy)]
pub enum Form {
    Three,
    Six,
    Other(u32),
}

// What a message is, by its sender's issue.
#[derive(Clone, Copy)]
pub enum AnyReading {
    Refused(u32),
    // The payload is the `length` bytes from `start` on: `payload` hands them back.
    Six {
        header: Header,
        message: Message,
        start: usize,
        length: usize,
    },
    Three {
        header: Header3,
        message: Message3,
        start: usize,
        length: usize,
    },
}

#[derive(Clone, Copy)]
pub enum AnyAnswer {
    Refused(u32),
    // Of a partner of Issue 6, as `platform` has it. The replies are owed to the header's platform.
    Six {
        header: Header,
        heard: Heard,
        written: usize,
    },
    // The response to a request that was pending: its operation's entry, and its payload, `length` bytes of the message from `start`
    // on. Nothing is owed.
    SixResponse {
        header: Header,
        entry: u16,
        start: usize,
        length: usize,
    },
    // Of a partner of Issue 3, likewise.
    Three {
        header: Header3,
        heard: Heard3,
        written: usize,
    },
    ThreeResponse {
        header: Header3,
        entry: u16,
        start: usize,
        length: usize,
    },
}

#[derive(Clone, Copy)]
pub struct AnyReceived {
    pub standing: Standing,
    pub answer: AnyAnswer,
}

// Reads a message by its sender's issue, notes the state or the services that it tells, and writes the owed replies at the output's
// start; a response frees its place of the list. `partners` says who speaks Issue 3, `ours` are our services, `blocks` has what the
// partners of Issue 3 told of theirs. The sections are known to lie in the table, and it does not ask. What it hands on whole it hands
// on as `[..]`, which the compiler makes a pair of its own for; as it came, it would be read by the pair, and wait for both its halves.
pub fn receive_within(
    own: Own,
    stamp: Stamp,
    composite: u32,
    partners: &[u64],
    ours: &[u64],
    table: &[u8],
    s: Sections,
    index: &[u64],
    standing: Standing,
    list: &mut [u64],
    blocks: &mut [u64],
    message: &[u8],
    out: &mut [u8],
) -> AnyReceived
    ensures answer { result
        ≡ any_outcome own.platform partners.now ours.now table.now s index.now standing
        list.old blocks.old message.now (length out.old) }
    ensures output { out.new
        ≡ any_output own.platform stamp composite partners.now ours.now table.now s index.now standing
        blocks.old message.now out.old }
    ensures list { list.new
        ≡ any_list own.platform partners.now table.now s index.now list.old message.now }
    ensures blocks { blocks.new
        ≡ any_words own.platform partners.now ours.now table.now s index.now standing
        blocks.old message.now (length out.old) }
{
    match reader::form_of(partners, message) {
        Form::Other(number) => answers::refused(standing, number),
        Form::Six => {
            let received = platform::receive_within(
                own,
                &table[..],
                s,
                &index[..],
                standing,
                list,
                &message[..],
                out,
            );
            answers::from_received(received)
        }
        Form::Three => receiving::of_three(
            own,
            stamp,
            composite,
            partners,
            ours,
            &table[..],
            s,
            &index[..],
            standing,
            list,
            blocks,
            &message[..],
            out,
        ),
    }
}

// The same on a table that was checked before: its bytes, the sections that the check handed back, and the index of its operations.
pub fn receive_checked(
    own: Own,
    stamp: Stamp,
    composite: u32,
    partners: &[u64],
    ours: &[u64],
    table: &[u8],
    s: Sections,
    index: &[u64],
    standing: Standing,
    list: &mut [u64],
    blocks: &mut [u64],
    message: &[u8],
    out: &mut [u8],
) -> AnyReceived
    ensures answer { result
        ≡ sections_answer own.platform partners.now ours.now table.now s index.now standing
        list.old blocks.old message.now (length out.old) }
    ensures output { out.new
        ≡ sections_out own.platform stamp composite partners.now ours.now table.now s index.now standing
        blocks.old message.now out.old }
    ensures list { list.new
        ≡ sections_pending own.platform partners.now table.now s index.now list.old message.now }
    ensures blocks { blocks.new
        ≡ sections_words own.platform partners.now ours.now table.now s index.now standing
        blocks.old message.now (length out.old) }
{
    if table::within(table, s) {
        receive_within(
            own, stamp, composite, partners, ours, table, s, index, standing, list, blocks,
            message, out,
        )
    } else {
        answers::refused(standing, CUT_SHORT)
    }
}

// The same on table bytes: 30 to 33 come first.
pub fn receive(
    own: Own,
    stamp: Stamp,
    composite: u32,
    partners: &[u64],
    ours: &[u64],
    table: &[u8],
    standing: Standing,
    list: &mut [u64],
    blocks: &mut [u64],
    message: &[u8],
    out: &mut [u8],
) -> AnyReceived
    ensures answer { result
        ≡ answer_if (checked table.now) own.platform partners.now ours.now table.now standing
        list.old blocks.old message.now (length out.old) }
    ensures output { out.new
        ≡ out_if (checked table.now) own.platform stamp composite partners.now ours.now table.now standing
        blocks.old message.now out.old }
    ensures list { list.new
        ≡ pending_if (checked table.now) own.platform partners.now table.now list.old message.now }
    ensures blocks { blocks.new
        ≡ words_if (checked table.now) own.platform partners.now ours.now table.now standing
        blocks.old message.now (length out.old) }
{
    match types::check(table) {
        Err(refusal) => answers::refused(standing, refusal.number()),
        Ok(s) => receive_indexed(
            own, stamp, composite, partners, ours, table, s, standing, list, blocks, message, out,
        ),
    }
}

// A table that was just checked has no index yet.
fn receive_indexed(
    own: Own,
    stamp: Stamp,
    composite: u32,
    partners: &[u64],
    ours: &[u64],
    table: &[u8],
    s: Sections,
    standing: Standing,
    list: &mut [u64],
    blocks: &mut [u64],
    message: &[u8],
    out: &mut [u8],
) -> AnyReceived
    ensures answer { result
        ≡ any_outcome own.platform partners.now ours.now table.now s (index_of table.now s) standing
        list.old blocks.old message.now (length out.old) }
    ensures output { out.new
        ≡ any_output own.platform stamp composite partners.now ours.now table.now s (index_of table.now s) standing
        blocks.old message.now out.old }
    ensures list { list.new
        ≡ any_list own.platform partners.now table.now s (index_of table.now s) list.old message.now }
    ensures blocks { blocks.new
        ≡ any_words own.platform partners.now ours.now table.now s (index_of table.now s) standing
        blocks.old message.now (length out.old) }
{
    let mut index = [0u64; 1024];
    operations::lay_index(table, s.operations.at, s.operations.count, &mut index);
    receive_within(
        own, stamp, composite, partners, ours, table, s, &index, standing, list, blocks, message,
        out,
    )
}
