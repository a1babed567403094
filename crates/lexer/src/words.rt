// Keywords, compared in place with the bytes of the source.
ghost use Rattle.std.specs.Prelude.{◌≡◌};
ghost use Rattle.basics.specs.Basics.{same};

// Whether a part of the source is a word: `same` of the definitions, which is proved to be `==` here once, and not at each caller.
pub fn spells(part: &[u8], word: &[u8]) -> bool
    ensures { result ≡ same word.now part.now }
{
    word == part
}
