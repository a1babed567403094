// Texts written to a lent output: names, strings, codes.
//
// Each writer is lent the unwritten rest of an output, and writes at the front of it where its text fits. It counts in any case, so that the
// caller learns what length would do.
//
// Here and in `writer`, a caller cuts the rest itself, by `upto` and a range. A function `rest(out, n)` that hands the rest on was tried, and
// its proof did not close: that what is written there stands in the whole afterwards (`Lends`) the check proves where a body hands on a field
// or a call's result, and a range of a slice, or one part of `split_at_mut`, is neither.
#![tactic(auto)]

ghost use Rattle.std.specs.Prelude.{◌≡◌, ◌||◌, [], ◌∷◌, ◌≤◌, ◌<◌, ◌^◌, length};
ghost use Rattle.basics.specs.Basics.{is};
ghost use Rattle.characters.specs.Spans.{◌upto◌};
ghost use Rattle.lexer.specs.Tokens.{Kind};
ghost use Rattle.spelling.specs.Spelling.{quoted, hex_digit, hex_from, code_text, span_text, spell};
ghost use Rattle.output.specs.Promise.{Wrote, digit_at};

// Where what follows n bytes goes, in an output of `len` bytes: at its end where they did not fit.
pub fn upto(n: usize, len: usize) -> usize
    ensures { (result ≤ len) × (n ≤ len → result ≡ n) }
{
    n.min(len)
}

// Bytes. A stored name is written so: its bytes are those of its characters already. Byte by byte: `copy_from_slice` of some bytes, not known
// how many, calls `memmove`, which the archives for C would need from outside, and most texts of the walk are none or a few bytes, for which
// the call takes longer.
pub fn put(s: &[u8], out: &mut [u8]) -> usize
    ensures { Wrote s.now out.old out.new result }
{
    if out.len() < s.len() {
        return s.len();
    }
    for i in 0..s.len() {
        out[i] = s[i];
    }
    s.len()
}

// Whether a backslash goes before a byte of a string. A byte of 0x80 or more is part of a character that needs none.
fn is_special(b: u8) -> bool
    ensures { result ≡ (is "\"" b || is "\\" b) }
{
    b == b'"' || b == b'\\'
}

// A byte of a string.
fn put_escaped(b: u8, out: &mut [u8]) -> usize
    ensures { Wrote (quoted (b ∷ [])) out.old out.new result }
{
    if is_special(b) {
        put(&[b'\\', b], out)
    } else {
        put(&[b], out)
    }
}

// A stored text as a string token. Escaping its bytes is escaping its characters.
pub fn put_quoted(s: &[u8], out: &mut [u8]) -> usize
    requires { length s.now ≤ 2 ^ 32 }
    ensures { Wrote (spell (Kind.string (quoted s.now))) out.old out.new result }
{
    let mut n = put(b"\"", out);
    for b in s {
        let a = upto(n, out.len());
        n += put_escaped(*b, &mut out[a..]);
    }
    let end = upto(n, out.len());
    n + put(b"\"", &mut out[end..])
}

// A hexadecimal digit, upper case. By hand: `char::from_digit` gives lower case, and an Option.
fn hex_digit(d: u32) -> u8
    requires { d < 16 }
    ensures { result ≡ hex_digit d }
{
    if d < 10 {
        b'0' + d as u8
    } else {
        b'A' + (d as u8 - 10)
    }
}

// The digit of a code at a power of 16, if it is not a leading zero.
fn put_digit(code: u32, unit: u32, out: &mut [u8]) -> usize
    requires { 0 < unit }
    ensures digit { Wrote (digit_at code unit) out.old out.new result }
    ensures few { result ≤ 1 }
{
    if unit <= code {
        put(&[hex_digit(code / unit % 16)], out)
    } else {
        0
    }
}

// The digits of a code, of which there are at most six; the last stands in any case.
fn put_hex(code: u32, out: &mut [u8]) -> usize
    ensures { Wrote (hex_from 6 code []) out.old out.new result }
{
    let mut n = 0;
    for unit in [0x100000, 0x10000, 0x1000, 0x100, 0x10] {
        let a = upto(n, out.len());
        n += put_digit(code, unit, &mut out[a..]);
    }
    let end = upto(n, out.len());
    n + put(&[hex_digit(code % 16)], &mut out[end..])
}

// A code of a set: `\u{HEX}`.
fn put_code(code: u32, out: &mut [u8]) -> usize
    ensures { Wrote (code_text code) out.old out.new result }
{
    let mut n = put(b"\\u{", out);
    let a = upto(n, out.len());
    n += put_hex(code, &mut out[a..]);
    let b = upto(n, out.len());
    n + put(b"}", &mut out[b..])
}

// The codes of a span of a set: its code where it has one, or its first and its last.
pub fn put_codes(first: u32, past: u32, out: &mut [u8]) -> usize
    ensures { Wrote (span_text (first upto past)) out.old out.new result }
{
    let mut n = put_code(first, out);
    if first as usize + 1 == past as usize {
        return n;
    }
    let a = upto(n, out.len());
    n += put(b"-", &mut out[a..]);
    let b = upto(n, out.len());
    n + put_code(past.saturating_sub(1), &mut out[b..])
}
