// A message read, in words.
ghost use Rattle.std.specs.Prelude.{◌≡◌, cond, eqb};
ghost use Rattle.message.specs.declared.Message.TheVariants.{Operation};
ghost use Rattle.message.specs.Header.{platform_domain, domain_in, id_in, payload_in};
ghost use Rattle.message.specs.Refusal.{contents_refusal, read_refusal};
ghost use Rattle.message.specs.Reading.{reading_out};
ghost use Rattle.message.specs.Platform.{kind_in};
ghost use Rattle.nyrkovash.specs.MessageCalls.{read_left, number_read, read_answer};

use message::{Header, Own};

// How many words a message that was read is.
pub const READING_WORDS: usize = 6;

// Message kinds: the IDs of platform messages, and behind them an operation.
pub const OPERATION: u64 = 5;

// Reads a message at this platform: 1 to 9, or 0 and the message.
#[unsafe(no_mangle)]
pub extern "C" fn nyr_read(own: u8, message: &[u8], answer: &mut [u64; READING_WORDS]) -> u32
    ensures value { result ≡ number_read own message.now }
    ensures answer_after { answer.new ≡ read_answer own message.now answer.old }
{
    let number = refusal(Own { platform: own }, message);
    if number == 0 {
        put_reading(message, answer);
        0
    } else {
        number
    }
}

// `message::read_refusal` by its three steps: that one is called elsewhere too, so that the compiler does not lay it out here, and
// the call makes reading a header take 1.3 times as long as in plain Rust.
fn refusal(own: Own, message: &[u8]) -> u32
    ensures { result ≡ read_refusal own.platform message.now }
{
    let frame = message::frame_refusal(message);
    if frame == 0 {
        let address = message::address_refusal(own, message);
        if address == 0 {
            message::contents_refusal(
                wire::number_at::<u8>(message, Header::DOMAIN_AT),
                wire::number_at::<u32>(message, Header::ID_AT),
                message::behind_header(message),
            )
        } else {
            address
        }
    } else {
        frame
    }
}

// A message that nothing refuses, straight from its bytes: its kind is the ID, and its value the field of its payload, or the
// ID of an operation.
fn put_reading(message: &[u8], answer: &mut [u64; READING_WORDS])
    requires { contents_refusal (domain_in message.now) (id_in message.now) (payload_in message.now) ≡ 0 }
    ensures { answer.new ≡ read_left answer.old (reading_out message.now) }
{
    let domain = wire::number_at::<u8>(message, Header::DOMAIN_AT);
    let id = wire::number_at::<u32>(message, Header::ID_AT);
    *answer = [
        kind_of(domain, id),
        value_of(domain, id, wire::number_at::<u32>(message, Header::LENGTH)),
        wire::number_at::<u32>(message, Header::PLATFORM_AT) as u64,
        wire::number_at::<u32>(message, Header::SEQUENCE_AT) as u64,
        Header::LENGTH as u64,
        wire::number_at::<u32>(message, Header::PAYLOAD_SIZE_AT) as u64,
    ];
}

pub(crate) fn kind_of(domain: u8, id: u32) -> u64
    ensures { result ≡ cond (eqb domain platform_domain) id (kind_in Operation) }
{
    if domain == Header::PLATFORM_DOMAIN {
        id as u64
    } else {
        OPERATION
    }
}

pub(crate) fn value_of(domain: u8, id: u32, field: u32) -> u64
    ensures { result ≡ cond (eqb domain platform_domain) field id }
{
    if domain == Header::PLATFORM_DOMAIN {
        field as u64
    } else {
        id as u64
    }
}
