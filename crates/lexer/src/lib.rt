// The tokens of a grammar file. A token's text is a part of the source: strings and sets are decoded where they are stored.
//
// Functions take the whole source and a place in it, not the rest from that place on: tokens, parts and stops have places in the whole
// source, and contracts speak of these.
#![tactic(auto)]

pub mod escapes; // what a backslash stands for, and the value of a string
pub mod sets; // the spans of a set, and what stops it
pub mod words; // keywords

ghost use Rattle.std.specs.Prelude.{◌≡◌, Bool, true, false, ℕ, ◌+◌, ◌≤◌, ◌<◌, length, drop, get_or, eqb};
ghost use Rattle.characters.specs.Places.{chars_at, cut, run};
ghost use Rattle.characters.specs.Promise.{Next};
ghost use Rattle.characters.specs.Classes.{is_line_terminator, is_word};
ghost use Rattle.lexer.specs.Tokens.{body, never, string_of, at_of, set_of};
ghost use Rattle.lexer.specs.Promise.{opens_set, end_of, Settled, Skipped, Lexes, Reads};

use error::{Cause, Stop};

// A part of the source, by two places. It holds no text, so that a token is a plain value: that a part lies within a text is said beside the
// text (`IsPart`), and no invariant of this type can say it. `sets::Span` has two codes: as one type, a span could be taken for a part.
#[derive(Clone, Copy, Debug, PartialEq, Eq)]
pub struct Part {
    pub from: usize,
    pub to: usize,
}

impl Part {
    // Its bytes, as far as they lie in the source.
    pub fn of(self, source: &[u8]) -> &[u8]
        ensures { result.now ≡ cut source.now self.from self.to }
    {
        let to = self.to.min(source.len());
        &source[self.from.min(to)..to]
    }
}

// The kind of a token, with the part of the source that is its name, or that stands between its quotes or brackets. A string says
// which quote it has.
#[derive(Clone, Copy, Debug, PartialEq, Eq)]
pub enum Kind {
    String(u32, Part),
    At(Part),
    Set(bool, Part),
    Punctuation(u32),
    Identifier(Part),
}

// A token by its kind, start and end, or the end of the text by its place.
#[derive(Clone, Copy, Debug, PartialEq, Eq)]
pub enum Token {
    Of(Kind, usize, usize),
    Eof(usize),
}

// The first token from a place on.
pub fn next(source: &[u8], from: usize) -> Result<Token, Stop>
    ensures { Reads source.now from result }
{
    let start = skip_trivia(source, from)?;
    lex(source, start)
}

// The token at a place where no white space and no comment begins.
fn lex(source: &[u8], start: usize) -> Result<Token, Stop>
    requires { Settled (chars_at source.now start) }
    ensures { Reads source.now start result }
{
    let Some((c, n)) = characters::decode(source, start) else {
        return Ok(Token::Eof(start));
    };
    match c {
        0x22 | 0x27 => lex_string(source, start, c),
        0x40 => lex_at(source, start),
        _ if opens_set(source, c, start + n) => lex_set(source, start, c == 0x21),
        _ if characters::is_punctuation(c) => {
            Ok(Token::Of(Kind::Punctuation(c), start, start + n))
        }
        _ if characters::is_word(c) => {
            let end = characters::scan_word(source, start + n);
            let name = Part {
                from: start,
                to: end,
            };
            Ok(Token::Of(Kind::Identifier(name), start, end))
        }
        _ => Err(Stop {
            cause: Cause::UnexpectedCharacter,
            place: start,
        }),
    }
}

// Whether a set begins with c, with the character at a place after it.
#[tactic(auto, using(std::proofs::lemmas::Bool::Decides::nat_tests), unfolding(crate::specs::Promise::opens_set))]
fn opens_set(source: &[u8], c: u32, next: usize) -> bool
    ensures { result ≡ opens_set source.now c next }
{
    matches!(c, 0x24 | 0x21) && characters::peek(source, next) == Some(0x5B)
}

// The place of the next token, past white space and comments. A comment that is not closed stops the lexer.
fn skip_trivia(source: &[u8], from: usize) -> Result<usize, Stop>
    ensures { Skipped source.now from result }
{
    let mut cursor = from;
    'trivia: loop {
        'space: loop {
            let Some((c, n)) = characters::decode(source, cursor) else {
                return Ok(cursor);
            };
            if !characters::is_ecmascript_whitespace(c) {
                break 'space;
            }
            cursor += n;
        }
        if characters::peek(source, cursor) != Some(0x2F) {
            return Ok(cursor);
        }
        let d = characters::peek(source, cursor + 1);
        if d == Some(0x2F) {
            cursor += 2;
            'line: loop {
                let Some((e, m)) = characters::decode(source, cursor) else {
                    continue 'trivia;
                };
                if characters::is_line_terminator(e) {
                    continue 'trivia;
                }
                cursor += m;
            }
        }
        if d != Some(0x2A) {
            return Ok(cursor);
        }
        let start = cursor;
        cursor = start + 2;
        'block: loop {
            if is_passed(source, cursor) {
                cursor += 1;
                continue 'block;
            }
            let Some((e, m)) = characters::decode(source, cursor) else {
                return Err(Stop {
                    cause: Cause::UnexpectedCharacter,
                    place: start,
                });
            };
            cursor += m;
            if e == 0x2A {
                if characters::peek(source, cursor) == Some(0x2F) {
                    cursor += 1;
                    continue 'trivia;
                }
            }
        }
    }
}

// Whether an ASCII character other than `*` stands at a place: most of a comment is of these, and none of them can end it.
fn is_passed(source: &[u8], at: usize) -> bool
    ensures { result ≡ true → (at < length source.now) × (get_or source.now at 0 < 0x80) × (eqb (get_or source.now at 0) 0x2A ≡ false) }
{
    at < source.len() && matches!(source[at], 0..=0x29 | 0x2B..=0x7F)
}

// The string at its quote. No line terminator belongs to it, not even after a backslash.
fn lex_string(source: &[u8], start: usize, quote: u32) -> Result<Token, Stop>
    requires { Next source.now start quote }
    ensures { Lexes source.now start 1 (string_of (chars_at source.now (start + 1)) (body is_line_terminator quote false (chars_at source.now (start + 1)))) result }
{
    let content_start = start + 1;
    let Some((e, end)) = body_end(source, content_start, quote, characters::is_line_terminator)
    else {
        return Err(Stop {
            cause: Cause::UnterminatedString,
            place: start,
        });
    };
    let text = Part {
        from: content_start,
        to: e,
    };
    Ok(Token::Of(Kind::String(quote, text), start, end))
}

// The places before and after the mark that ends a string or a set whose text begins at a place. A backslash takes the character after
// it along, unless it is one that stops the text.
fn body_end<F: Fn(u32) -> bool>(
    source: &[u8],
    from: usize,
    mark: u32,
    stops: F,
) -> Option<(usize, usize)>
    requires { F.IsAlwaysCallable stops }
    ensures { (p : ℕ → Bool) → ((c : ℕ) (r : Bool) → F.post stops c r → r ≡ p c) → result ≡ end_of p mark source.now from false }
{
    let mut cursor = from;
    loop {
        let (c, n) = characters::decode(source, cursor)?;
        if c == mark {
            return Some((cursor, cursor + n));
        }
        cursor += n;
        if c == 0x5C {
            let (d, m) = characters::decode(source, cursor)?;
            if stops(d) {
                return None;
            }
            cursor += m;
        }
    }
}

// The keyword at an `@`.
fn lex_at(source: &[u8], start: usize) -> Result<Token, Stop>
    requires { start + 1 ≤ length source.now }
    ensures { Lexes source.now start 1 (at_of (chars_at source.now (start + 1)) (run is_word (chars_at source.now (start + 1)))) result }
{
    let name_start = start + 1;
    let end = characters::scan_word(source, name_start);
    if end == name_start {
        return Err(Stop {
            cause: Cause::AtWithoutName,
            place: start,
        });
    }
    let name = Part {
        from: name_start,
        to: end,
    };
    Ok(Token::Of(Kind::At(name), start, end))
}

// The set at its `$` or `!`.
fn lex_set(source: &[u8], start: usize, inverted: bool) -> Result<Token, Stop>
    requires { (start + 1 ≤ length source.now) × Next source.now (start + 1) 0x5B }
    ensures { Lexes source.now start 1 (set_of inverted (drop 1 (chars_at source.now (start + 1))) (body never 0x5D false (drop 1 (chars_at source.now (start + 1))))) result }
{
    let content_start = start + 2;
    let Some((e, end)) = body_end(source, content_start, 0x5D, |_| false) else {
        return Err(Stop {
            cause: Cause::UnterminatedSet,
            place: start,
        });
    };
    let text = Part {
        from: content_start,
        to: e,
    };
    Ok(Token::Of(Kind::Set(inverted, text), start, end))
}
