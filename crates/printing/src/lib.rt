// What the programs share: an input that is read whole, numbers in decimal, and the line of a refusal.
#![tactic(auto)]

ghost use Rattle.std.specs.Prelude.{◌+◌, ◌≤◌, ◌<◌, ◌^◌, [], ◌++◌, length, IfOk, Some};
ghost use Rattle.error.specs.Promise.{refusal_of};
ghost use Rattle.output.specs.Promise.{Wrote};
ghost use Rattle.grammar.specs.Program.{decimal, refusal_line};
ghost use Rattle.printing.specs.Promise.{Fills, WroteDigits};

use error::Refusal;
use output::{put, upto};
use std::io::Read;
use std::{fmt, io, str};

// What the programs lend to the calls: the words of a tree, the bytes of its texts, the bytes of a normal text.
pub const WORDS: usize = 14000;

pub const TEXTS: usize = 32768;

pub const OUTPUT: usize = 65535;

// Reads until the input ends or the buffer is full. A read that fails is not taken for the end.
pub fn read_all<R: Read>(input: &mut R, buf: &mut [u8]) -> io::Result<usize>
    ensures within { IfOk result (λ n. n ≤ length buf.new) }
    ensures bytes { Fills (R.remaining input.old) (R.remaining input.new) result buf.new }
{
    let mut n = 0;
    // By hand: `read_exact` takes an early end for an error, `read_to_end` wants a Vec, and `io::copy` says nothing of a slice's bytes.
    while n < buf.len() {
        let more = input.read(&mut buf[n..])?;
        if more == 0 {
            return Ok(n);
        }
        n += more;
    }
    Ok(n)
}

// The digits of a number, the first ones by a call. By hand: an edit that the gate must refuse, `digits_from_one`, changes the digits in this
// function; with the library's there would be none to change, and by a rule of the project each such edit keeps its meaning.
fn put_digits(v: u64, out: &mut [u8]) -> usize
    ensures { WroteDigits v out.old out.new result }
{
    if v < 10 {
        return put(&[b'0' + v as u8], out);
    }
    let n = put_digits(v / 10, out);
    let a = upto(n, out.len());
    n + put(&[b'0' + (v % 10) as u8], &mut out[a..])
}

// A number in decimal.
pub fn put_decimal(v: u64, out: &mut [u8]) -> usize
    ensures { Wrote (decimal v []) out.old out.new result }
{
    put_digits(v, out)
}

// A few bytes, and a number behind them.
fn put_numbered(label: &[u8], v: u64, out: &mut [u8]) -> usize
    requires { length label.now < 2 ^ 30 }
    ensures text { Wrote (label.now ++ decimal v []) out.old out.new result }
    ensures few { result ≤ length label.now + 20 }
{
    let n = put(label, out);
    let a = upto(n, out.len());
    n + put_decimal(v, &mut out[a..])
}

// The line `refused N at P line L column C`, with its line feed.
pub fn put_refusal(refusal: Refusal, out: &mut [u8]) -> usize
    ensures { Wrote (refusal_line (refusal_of refusal)) out.old out.new result }
{
    let Refusal {
        cause,
        place,
        line,
        column,
    } = refusal;
    let mut n = put_numbered(b"refused ", cause.number() as u64, out);
    let a = upto(n, out.len());
    n += put_numbered(b" at ", place as u64, &mut out[a..]);
    let b = upto(n, out.len());
    n += put_numbered(b" line ", line as u64, &mut out[b..]);
    let c = upto(n, out.len());
    n += put_numbered(b" column ", column as u64, &mut out[c..]);
    let d = upto(n, out.len());
    n + put(b"\n", &mut out[d..])
}

// How long such a line may be: 27 bytes, and four numbers of at most 20 digits.
const LONGEST: usize = 107;

// A refusal as the programs print it, in one write.
#[derive(Clone, Copy)]
pub struct Line(pub Refusal);

impl fmt::Display for Line {
    ghost output = { λ l. Some (refusal_line (refusal_of l.0)) };

    fn fmt<W: fmt::Write>(&self, f: &mut fmt::Formatter<W>) -> fmt::Result {
        let mut line = [0; LONGEST];
        let n = put_refusal(self.0, &mut line);
        let Ok(text) = str::from_utf8(&line[..n]) else {
            unreachable!()
        };
        f.write_str(text)
    }
}
