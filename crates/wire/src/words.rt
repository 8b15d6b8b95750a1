// Words that the caller lends.
ghost use Rattle.std.specs.Prelude.{◌≡◌, get_or};

// A word past the end reads as 0.
pub fn word_at(words: &[u64], at: usize) -> u64
    ensures { result ≡ get_or words.now at 0 }
{
    if at < words.len() { words[at] } else { 0 }
}
