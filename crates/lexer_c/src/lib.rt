// The lexer under plain names, for programs in Rust or C to link: compare/lexer does. Parameters are those of the C interface: a source and a
// place in it are two of them.
#![tactic(auto)]

ghost use Rattle.std.specs.Prelude.{◌≡◌, ◌+◌, ◌≤◌, length};
ghost use Rattle.characters.specs.Utf8.{codes, encode_all};
ghost use Rattle.characters.specs.Promise.{written_all};
ghost use Rattle.lexer.specs.Escapes.{decode_string};
ghost use Rattle.lexer.specs.Sets.{spans};
ghost use Rattle.lexer.specs.Promise.{stored};
ghost use Rattle.lexer_c.specs.Words.{Answers, RangesSay, token_words};

use error::Cause;
use lexer::{Kind, Token};

// The first token from a place on, as six words: what it is (1 string, 2 at, 3 set, 4 punctuation, 5 identifier, 6 end, 7 refused),
// its start and end, its part's start and end, and its quote, inversion or character. A refusal has its cause for the end.
#[unsafe(no_mangle)]
pub extern "C" fn lexer_next(source: &[u8], from: usize, out: &mut [u64])
    ensures { Answers source.now from out.old out.new }
{
    let words = match lexer::next(source, from) {
        Ok(Token::Of(kind, start, end)) => token_words(kind, start as u64, end as u64),
        Ok(Token::Eof(at)) => [6, at as u64, 0, 0, 0, 0],
        Err(stop) => [7, stop.place as u64, stop.cause.number() as u64, 0, 0, 0],
    };
    answers::put(out, words);
}

fn token_words(kind: Kind, start: u64, end: u64) -> [u64; 6]
    ensures { result ≡ token_words kind start end }
{
    match kind {
        Kind::String(q, part) => [1, start, end, part.from as u64, part.to as u64, q as u64],
        Kind::At(part) => [2, start, end, part.from as u64, part.to as u64, 0],
        Kind::Set(inverted, part) => [
            3,
            start,
            end,
            part.from as u64,
            part.to as u64,
            inverted as u64,
        ],
        Kind::Punctuation(c) => [4, start, end, 0, 0, c as u64],
        Kind::Identifier(part) => [5, start, end, part.from as u64, part.to as u64, 0],
    }
}

#[unsafe(no_mangle)]
pub extern "C" fn lexer_decode_string(body: &[u8], out: &mut [u8]) -> usize
    ensures { (result ≡ length (encode_all (decode_string (codes body.now)))) × (out.new ≡ written_all out.old 0 (decode_string (codes body.now))) }
{
    lexer::escapes::decode_string(body, out)
}

// How many spans a set has; or one of the two greatest numbers, for a reversed span and for an overlapping one.
#[unsafe(no_mangle)]
pub extern "C" fn lexer_parse_set_ranges(body: &[u8], out: &mut [u32]) -> u64
    ensures { RangesSay (spans (codes body.now)) result × (out.new ≡ stored (spans (codes body.now)) out.old) }
{
    match lexer::sets::parse_set_ranges(body, out) {
        Ok(n) => n as u64,
        Err(Cause::ReversedSpan) => 0xFFFFFFFFFFFFFFFE,
        Err(_) => 0xFFFFFFFFFFFFFFFF,
    }
}
