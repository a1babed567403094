// Characters: UTF-8, by Unicode's table 3-7, and the classes that the lexer asks for.
//
// `decode`, `decode_wide`, `peek`, `scan_word` and `put` take a whole text and a place in it, not the rest from that place on: contracts and
// promises speak of places in the whole text, from which the lexer goes on. But for `decode_wide`, which requires a place within the text, a
// place may lie past the end, where no rest can be cut.
#![tactic(auto)]

mod table;

ghost use Rattle.std.specs.Prelude.{◌≡◌, List, ◌<◌, T, length, get_or};
ghost use Rattle.basics.specs.Basics.{within};
ghost use Rattle.characters.specs.Utf8.{lead_len, char_of, check, is_scalar, width};
ghost use Rattle.characters.specs.Places.{decode_at, first_at};
ghost use Rattle.characters.specs.Spans.{Span, in_spans};
ghost use Rattle.characters.specs.Alphabetic.{is_alphabetic};
ghost use Rattle.characters.specs.Classes.{is_ascii_digit, is_ascii_hexdigit, is_whitespace, is_ecmascript_whitespace, is_line_terminator, is_punctuation, is_word};
ghost use Rattle.characters.specs.Promise.{is_second, run_end, written, scalar_bytes, ascending, flat, Split, is_ascii_letter, is_ascii_space, is_ascii_word};
ghost use Rattle.error.specs.declared.Cause.TheVariants.{NotUtf8};

use error::{Cause, Stop};
use table::{ALPHABETIC, WHITE_SPACE};

// A text is not UTF-8: where its first ill-formed sequence starts.
#[derive(Clone, Copy, Debug, PartialEq, Eq)]
pub struct IllFormed {
    pub at: usize,
}

impl From<IllFormed> for Stop {
    ghost from_gives = { λ e s. s ≡ record { cause = NotUtf8; place = e.at } };

    fn from(e: IllFormed) -> Stop {
        Stop {
            cause: Cause::NotUtf8,
            place: e.at,
        }
    }
}

// A byte as a number, or 0 past the end: 0 continues no character, so that an `Option` would be taken apart to the same 0. k is an index.
fn byte_at(text: &[u8], k: usize) -> u32
    ensures { result ≡ get_or text.now k 0 }
{
    text.get(k).map_or(0, |&b| b as u32)
}

// Codes are numbers here and need not be characters, so `char::is_ascii_digit` and the like do not take them: the tests of codes below stand
// on this one. It is `within` of the definitions; `(lo..=hi).contains(&x)` makes the same two comparisons by a reference: no plainer.
fn is_within(lo: u32, hi: u32, x: u32) -> bool
    ensures { result ≡ within lo hi x }
{
    lo <= x && x <= hi
}

// Whether b may come second after a first byte of two or more: the second column of table 3-7.
#[tactic(auto, using(std::proofs::lemmas::Bool::Decides::nat_tests), unfolding(crate::specs::Promise::is_second))]
fn is_second(a: u32, b: u32) -> bool
    ensures { result ≡ is_second a b }
{
    match a {
        0xE0 => is_within(0xA0, 0xBF, b),
        0xED => is_within(0x80, 0x9F, b),
        0xF0 => is_within(0x90, 0xBF, b),
        0xF4 => is_within(0x80, 0x8F, b),
        _ => is_within(0x80, 0xBF, b),
    }
}

// The character that begins with these bytes: its code by table 3-6, and how many of the bytes it takes.
#[tactic(auto, using(crate::proofs::Leads::none_0, crate::proofs::Leads::char_1, crate::proofs::Leads::char_2, crate::proofs::Leads::char_3, crate::proofs::Leads::none_3, crate::proofs::Leads::char_4, crate::proofs::Leads::none_4))]
fn of_bytes(a: u32, b: u32, c: u32, d: u32) -> Option<(u32, usize)>
    ensures { result ≡ char_of (lead_len a b) a b c d }
{
    match a {
        0..=0x7F => Some((a, 1)),
        0xC2..=0xDF if is_second(a, b) => Some((a % 32 * 64 + b % 64, 2)),
        0xE0..=0xEF if is_second(a, b) && is_within(0x80, 0xBF, c) => {
            Some((a % 16 * 4096 + b % 64 * 64 + c % 64, 3))
        }
        0xF0..=0xF4 if is_second(a, b) && is_within(0x80, 0xBF, c) && is_within(0x80, 0xBF, d) => {
            Some((a % 8 * 262144 + b % 64 * 4096 + c % 64 * 64 + d % 64, 4))
        }
        _ => None,
    }
}

// The code of the character at a place within the text, by all four bytes. It stays out of line: inlined, it makes `scan_word` take 1.7 times as
// long on ASCII. It answers the code alone, which fits a register: an answer with the width beside it would be memory of the caller, which is
// cleared at each turn of the loops that `decode` is taken into.
#[inline(never)]
fn decode_wide(text: &[u8], at: usize) -> Option<u32>
    requires { at < length text.now }
    ensures { result ≡ first_at text.now at }
{
    let rest = &text[at..];
    let a = byte_at(rest, 0);
    let b = byte_at(rest, 1);
    let c = byte_at(rest, 2);
    let d = byte_at(rest, 3);
    of_bytes(a, b, c, d).map(|(c, _)| c)
}

// How many bytes a code takes.
fn width(code: u32) -> usize
    ensures { result ≡ width code }
{
    if code < 0x80 {
        return 1;
    }
    if code < 0x800 {
        return 2;
    }
    if code < 0x10000 {
        return 3;
    }
    4
}

// The character at a place: its code and how many bytes it takes. An ASCII byte is one by itself; the rest stands apart, so that callers
// take this much in.
pub fn decode(text: &[u8], at: usize) -> Option<(u32, usize)>
    ensures { result ≡ decode_at text.now at }
{
    let &a = text.get(at)?;
    if a < 0x80 {
        return Some((a as u32, 1));
    }
    let c = decode_wide(text, at)?;
    Some((c, width(c)))
}

// The code of the character at a place.
pub fn peek(text: &[u8], at: usize) -> Option<u32>
    ensures { result ≡ first_at text.now at }
{
    decode(text, at).map(|(c, _)| c)
}

// Whether a text is UTF-8.
pub fn check(text: &[u8]) -> Result<(), IllFormed>
    ensures { result ≡ check text.now }
{
    str::from_utf8(text).map_err(|e| IllFormed {
        at: e.valid_up_to(),
    })?;
    Ok(())
}

// Whether a code is a scalar: `char::from_u32` has a character for it.
#[tactic(auto, using(std::proofs::lemmas::Bool::Decides::nat_tests), unfolding(crate::specs::Utf8::is_scalar))]
pub fn is_scalar(code: u32) -> bool
    ensures { result ≡ is_scalar code }
{
    char::from_u32(code).is_some()
}

// Writes bytes to the start of a part, where they fit, and counts them in any case.
fn lay<const N: usize>(out: &mut [u8], bytes: [u8; N]) -> usize
    ensures { (result ≡ N) × (out.new ≡ written out.old 0 bytes.entry) }
{
    if N <= out.len() {
        out[..N].copy_from_slice(&bytes);
    }
    N
}

// Writes the bytes of a scalar to the start of a part, where they fit, and counts them in any case. A code that is no scalar has none. By
// hand: `char::encode_utf8` takes a `char`, and panics where the part is too short, while this counts on, to say how much room is needed.
pub fn encode_utf8(out: &mut [u8], code: u32) -> usize
    ensures { (result ≡ length (scalar_bytes code)) × (out.new ≡ written out.old 0 (scalar_bytes code)) }
{
    if !is_scalar(code) {
        return 0;
    }
    if code < 0x80 {
        return lay(out, [code as u8]);
    }
    let last = (0x80 + code % 64) as u8;
    if code < 0x800 {
        return lay(out, [(0xC0 + code / 64) as u8, last]);
    }
    let third = (0x80 + code / 64 % 64) as u8;
    if code < 0x10000 {
        return lay(out, [(0xE0 + code / 4096) as u8, third, last]);
    }
    let second = (0x80 + code / 4096 % 64) as u8;
    lay(out, [(0xF0 + code / 262144) as u8, second, third, last])
}

// The same from a place on.
pub fn put(out: &mut [u8], at: usize, code: u32) -> usize
    ensures { (result ≡ length (scalar_bytes code)) × (out.new ≡ written out.old at (scalar_bytes code)) }
{
    if out.len() < at {
        return encode_utf8(&mut out[..0], code);
    }
    encode_utf8(&mut out[at..], code)
}

// How many entries of an ascending table are at most x.
fn count_upto(table: &[u32], x: u32) -> usize
    requires { T (ascending 0 table.now) }
    ensures { Split table.now x result }
{
    table.partition_point(|&e| e <= x)
}

// Whether the spans with these ends have a code: an odd number of the ends is at most the code.
fn in_spans(ends: &[u32], code: u32) -> bool
    requires { T (ascending 0 ends.now) }
    ensures { (ss : List Span) → flat ss ≡ ends.now → result ≡ in_spans ss code }
{
    count_upto(ends, code) % 2 == 1
}

#[tactic(auto, using(std::proofs::lemmas::Bool::Decides::nat_tests), unfolding(crate::specs::Promise::is_ascii_letter))]
fn is_ascii_letter(code: u32) -> bool
    ensures { result ≡ is_ascii_letter code }
{
    is_within(0x41, 0x5A, code) || is_within(0x61, 0x7A, code)
}

// A borrowed constant is copied where its function starts: the functions with a table have nothing else. They stand apart from their
// callers, so that these are taken in.
#[inline(never)]
fn in_alphabetic(code: u32) -> bool
    ensures { result ≡ is_alphabetic code }
{
    in_spans(&ALPHABETIC, code)
}

// Whether a code is Alphabetic. ASCII needs no table.
pub fn is_alphabetic(code: u32) -> bool
    ensures { result ≡ is_alphabetic code }
{
    if code < 0x80 {
        return is_ascii_letter(code);
    }
    in_alphabetic(code)
}

#[tactic(auto, using(std::proofs::lemmas::Bool::Decides::nat_tests), unfolding(crate::specs::Promise::is_ascii_space))]
fn is_ascii_space(code: u32) -> bool
    ensures { result ≡ is_ascii_space code }
{
    code == 0x20 || is_within(0x09, 0x0D, code)
}

#[inline(never)]
fn in_white_space(code: u32) -> bool
    ensures { result ≡ is_whitespace code }
{
    in_spans(&WHITE_SPACE, code)
}

// Whether a code is White_Space. ASCII needs no table.
pub fn is_whitespace(code: u32) -> bool
    ensures { result ≡ is_whitespace code }
{
    if code < 0x80 {
        return is_ascii_space(code);
    }
    in_white_space(code)
}

#[tactic(auto, using(std::proofs::lemmas::Bool::Decides::nat_tests), unfolding(crate::specs::Classes::is_ascii_digit))]
pub fn is_ascii_digit(code: u32) -> bool
    ensures { result ≡ is_ascii_digit code }
{
    is_within(0x30, 0x39, code)
}

#[tactic(auto, using(std::proofs::lemmas::Bool::Decides::nat_tests), unfolding(crate::specs::Classes::is_ascii_hexdigit, crate::specs::Classes::is_ascii_digit))]
pub fn is_ascii_hexdigit(code: u32) -> bool
    ensures { result ≡ is_ascii_hexdigit code }
{
    is_ascii_digit(code) || is_within(0x41, 0x46, code) || is_within(0x61, 0x66, code)
}

// One of `[]()!~+*?{}<>.,|:$=`, in this order.
#[tactic(auto, using(std::proofs::lemmas::Bool::Decides::nat_tests), unfolding(crate::specs::Classes::is_punctuation))]
pub fn is_punctuation(code: u32) -> bool
    ensures { result ≡ is_punctuation code }
{
    // One arm each: with `|` this takes half as long again.
    match code {
        0x5B => true,
        0x5D => true,
        0x28 => true,
        0x29 => true,
        0x21 => true,
        0x7E => true,
        0x2B => true,
        0x2A => true,
        0x3F => true,
        0x7B => true,
        0x7D => true,
        0x3C => true,
        0x3E => true,
        0x2E => true,
        0x2C => true,
        0x7C => true,
        0x3A => true,
        0x24 => true,
        0x3D => true,
        _ => false,
    }
}

#[tactic(auto, using(std::proofs::lemmas::Bool::Decides::nat_tests), unfolding(crate::specs::Promise::is_ascii_word, crate::specs::Classes::is_ascii_digit))]
fn is_ascii_word(code: u32) -> bool
    ensures { result ≡ is_ascii_word code }
{
    is_ascii_letter(code) || is_ascii_digit(code) || code == 0x5F || code == 0x2D
}

// Whether a code may stand in a name.
pub fn is_word(code: u32) -> bool
    ensures { result ≡ is_word code }
{
    if code < 0x80 {
        return is_ascii_word(code);
    }
    in_alphabetic(code)
}

// ECMAScript's white space and line terminators.
pub fn is_ecmascript_whitespace(code: u32) -> bool
    ensures { result ≡ is_ecmascript_whitespace code }
{
    match code {
        0x85 => false,
        0xFEFF => true,
        _ => is_whitespace(code),
    }
}

#[tactic(auto, using(std::proofs::lemmas::Bool::Decides::nat_tests), unfolding(crate::specs::Classes::is_line_terminator))]
pub fn is_line_terminator(code: u32) -> bool
    ensures { result ≡ is_line_terminator code }
{
    matches!(code, 0x0A | 0x0D | 0x2028 | 0x2029)
}

// The end of the word characters from a place on: `scan_while` with `is_word`.
pub fn scan_word(text: &[u8], from: usize) -> usize
    ensures { result ≡ run_end is_word text.now from }
{
    let mut at = from;
    while let Some((c, n)) = decode(text, at) {
        if !is_word(c) {
            break;
        }
        at += n;
    }
    at
}
