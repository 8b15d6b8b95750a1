// Leaves of base codes, one behind another, and their words: judged by the codes alone, with no table.
ghost use Rattle.std.specs.Prelude.{◌≡◌, take};
ghost use Rattle.pack_leaves.specs.Stored.{taken_count, ends};

// How many leaves, and how many bytes they have.
#[derive(Clone, Copy)]
pub struct Passed {
    pub count: usize,
    pub bytes: usize,
}

// Judges words from the from-th on as leaves of these codes, up to one that is not there or is refused.
pub fn judge_codes(words: &[u64], codes: &[u8], from: usize) -> Passed
    ensures count_value { result.count ≡ taken_count words.now codes.now from }
    ensures bytes_value { result.bytes ≡ ends (take (taken_count words.now codes.now from) codes.now) 0 }
{
    if words.len() <= from {
        return Passed { count: 0, bytes: 0 };
    }
    let n = wire::least(codes.len(), words.len() - from);
    let mut bytes: usize = 0;
    for k in 0..n {
        let code = codes[k] as u16;
        if leaf::allowed(code, words[from + k]) {
            bytes = bytes + leaf::width(code);
        } else {
            return Passed { count: k, bytes };
        }
    }
    Passed { count: n, bytes }
}
