ghost use Rattle.std.specs.Prelude.{◌≡◌};
ghost use Rattle.payload.specs.Calls.{words_after, words_in, bytes_after, bytes_in};
ghost use Rattle.table.specs.Words.{sections_in};
ghost use Rattle.nyrkovash.specs.PayloadCalls.{unpack_number, unpack_walked, unpack_number_in, unpack_walked_in};
ghost use Rattle.nyrkovash.specs.PayloadCalls.{pack_number, pack_walked, pack_number_in, pack_walked_in};

use nyrkovash::WALKED_WORDS;
use table::SECTIONS_WORDS;

// Unpacks a payload of the table's type of that number: 30 to 33, 40 to 45, or 0 and how many words were given.
#[unsafe(no_mangle)]
pub extern "C" fn nyr_unpack(
    table: &[u8],
    number: u16,
    payload: &[u8],
    words: &mut [u64],
    walked: &mut [u64; WALKED_WORDS],
) -> u32
    ensures value { result ≡ unpack_number table.now number payload.now words.old }
    ensures words_after { words.new ≡ words_after table.now number payload.now words.old }
    ensures walked_after { walked.new ≡ unpack_walked table.now number payload.now words.old walked.old }
{
    nyrkovash::nyr_unpack(table, number, payload, words, walked)
}

// The same by the sections that a check gave.
#[unsafe(no_mangle)]
pub extern "C" fn nyr_unpack_in(
    table: &[u8],
    sections: &[u64; SECTIONS_WORDS],
    number: u16,
    payload: &[u8],
    words: &mut [u64],
    walked: &mut [u64; WALKED_WORDS],
) -> u32
    ensures value { result ≡ unpack_number_in table.now sections.now number payload.now words.old }
    ensures words_after { words.new
        ≡ words_in table.now (sections_in sections.now) number payload.now words.old }
    ensures walked_after { walked.new
        ≡ unpack_walked_in table.now sections.now number payload.now words.old walked.old }
{
    nyrkovash::nyr_unpack_in(table, sections, number, payload, words, walked)
}

// Packs the words as a payload of the table's type of that number: 30 to 33, 40 to 45, or 0 and how many bytes were given.
#[unsafe(no_mangle)]
pub extern "C" fn nyr_pack(
    table: &[u8],
    number: u16,
    words: &[u64],
    out: &mut [u8],
    walked: &mut [u64; WALKED_WORDS],
) -> u32
    ensures value { result ≡ pack_number table.now number words.now out.old }
    ensures out_after { out.new ≡ bytes_after table.now number words.now out.old }
    ensures walked_after { walked.new ≡ pack_walked table.now number words.now out.old walked.old }
{
    nyrkovash::nyr_pack(table, number, words, out, walked)
}

// The same by the sections that a check gave.
#[unsafe(no_mangle)]
pub extern "C" fn nyr_pack_in(
    table: &[u8],
    sections: &[u64; SECTIONS_WORDS],
    number: u16,
    words: &[u64],
    out: &mut [u8],
    walked: &mut [u64; WALKED_WORDS],
) -> u32
    ensures value { result ≡ pack_number_in table.now sections.now number words.now out.old }
    ensures out_after { out.new ≡ bytes_in table.now (sections_in sections.now) number words.now out.old }
    ensures walked_after { walked.new
        ≡ pack_walked_in table.now sections.now number words.now out.old walked.old }
{
    nyrkovash::nyr_pack_in(table, sections, number, words, out, walked)
}
