// Answers as plain words, for callers in Rust or C.
#![tactic(auto)]

ghost use Rattle.std.specs.Prelude.{◌≡◌};
ghost use Rattle.answers.specs.Words.{laid};

// Six words, where they fit.
pub fn put(out: &mut [u64], words: [u64; 6])
    ensures { out.new ≡ laid words out.old }
{
    if 6 <= out.len() {
        out[..6].copy_from_slice(&words);
    }
}
