ghost use Rattle.std.specs.Prelude.{◌≡◌};
ghost use Rattle.nyrkovash.specs.MessageCalls.{number_read, read_answer};

use nyrkovash::READING_WORDS;

// Reads a message at this platform: 1 to 9, or 0 and the message.
#[unsafe(no_mangle)]
pub extern "C" fn nyr_read(own: u8, message: &[u8], answer: &mut [u64; READING_WORDS]) -> u32
    ensures value { result ≡ number_read own message.now }
    ensures answer_after { answer.new ≡ read_answer own message.now answer.old }
{
    nyrkovash::nyr_read(own, message, answer)
}
