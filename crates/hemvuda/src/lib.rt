// The library's calls under plain names, for programs in Rust or C to link: include/hemvuda.h declares them, compare/ and examples/
// call them, which is why their parameters are slices alone. Each answers by value, so that a refusal always reaches its caller.
#![tactic(auto)]

ghost use Rattle.std.specs.Prelude.{◌≡◌, ◌≤◌};
ghost use Rattle.error.specs.Causes.{overlapping_span, texts_full, output_full};
ghost use Rattle.error.specs.Promise.{refusal_of};
ghost use Rattle.hemvuda.specs.Answers.{refusal_answer, said_answer, MeasuresTo, ReadsTo, WritesTo, ComparesTo};
ghost use Rattle.hemvuda.specs.Bounds.{Sized, Written, WantsRoom};
ghost use Rattle.hemvuda.specs.Demands.{KeepsRead, KeepsNormal};
ghost use Rattle.hemvuda.specs.Version.{version_number};

use error::Refusal;
use tree::Tree;

// The version of the library as one number: major · 10,000 + minor · 100 + patch.
#[unsafe(no_mangle)]
pub extern "C" fn hemvuda_version() -> u32
    ensures { result ≡ version_number 1 0 0 }
{
    10000
}

// What a call answers. Where it refuses: the cause's number, its place, line and column, and 0 in the rest. Else 0 in these four, and
// in the rest what the call says; `third` is 0.
#[repr(C)]
#[derive(Clone, Copy, Debug, PartialEq, Eq)]
pub struct Answer {
    pub cause: u64,
    pub place: u64,
    pub line: u64,
    pub column: u64,
    pub first: u64,
    pub second: u64,
    pub third: u64,
}

fn refused(refusal: Refusal) -> Answer
    ensures { result ≡ refusal_answer (refusal_of refusal) }
{
    Answer {
        cause: refusal.cause.number() as u64,
        place: refusal.place as u64,
        line: refusal.line as u64,
        column: refusal.column as u64,
        first: 0,
        second: 0,
        third: 0,
    }
}

fn said(first: usize, second: usize) -> Answer
    ensures { result ≡ said_answer first second }
{
    Answer {
        cause: 0,
        place: 0,
        line: 0,
        column: 0,
        first: first as u64,
        second: second as u64,
        third: 0,
    }
}

// Says how much the tree of a text takes, for which nothing is lent: how many words and bytes.
#[unsafe(no_mangle)]
pub extern "C" fn hemvuda_measure(text: &[u8]) -> Answer
    ensures outcome { MeasuresTo text.now result }
    ensures accepted { result.cause ≡ 0 → Sized text.now result }
    ensures causes { result.cause ≤ overlapping_span }
{
    match calls::measure(text) {
        Ok(extent) => said(extent.words, extent.bytes),
        Err(refusal) => refused(refusal),
    }
}

// Reads a text: its tree is stored over the front of the words and bytes that are lent. The answer says how many words and bytes the
// tree takes.
#[unsafe(no_mangle)]
pub extern "C" fn hemvuda_read(text: &[u8], records: &mut [u32], texts: &mut [u8]) -> Answer
    ensures outcome { ReadsTo text.now records.old texts.old result records.new texts.new }
    ensures kept { result.cause ≡ 0 → KeepsRead text.now records.old texts.old result records.new texts.new }
    ensures accepted { result.cause ≡ 0 → Sized text.now result }
    ensures room { WantsRoom text.now records.old texts.old result }
    ensures causes { result.cause ≤ texts_full }
{
    match calls::read(text, records, texts) {
        Ok(stored) => said(stored.words, stored.bytes),
        Err(refusal) => refused(refusal),
    }
}

// Reads a text as `hemvuda_read` does, and writes its normal text over the front of the output. The answer says how many bytes the
// normal text has, and 0.
#[unsafe(no_mangle)]
pub extern "C" fn hemvuda_normal_text(
    text: &[u8],
    records: &mut [u32],
    texts: &mut [u8],
    output: &mut [u8],
) -> Answer
    ensures outcome { WritesTo text.now records.old texts.old output.old result records.new texts.new output.new }
    ensures kept { result.cause ≡ 0 → KeepsNormal text.now records.old texts.old output.old result records.new texts.new output.new }
    ensures accepted { result.cause ≡ 0 → Written text.now result }
    ensures room { WantsRoom text.now records.old texts.old result }
    ensures causes { result.cause ≤ output_full }
{
    match calls::normal_text(text, records, texts, output) {
        Ok(bytes) => said(bytes, 0),
        Err(refusal) => refused(refusal),
    }
}

// Compares two stored expressions. The answer says 1 for equal or 0 for different, and 0.
#[unsafe(no_mangle)]
pub extern "C" fn hemvuda_structurally_eq(
    left_records: &[u32],
    left_texts: &[u8],
    right_records: &[u32],
    right_texts: &[u8],
) -> Answer
    ensures { ComparesTo left_records.now left_texts.now right_records.now right_texts.now result }
{
    let left = Tree {
        records: left_records,
        texts: left_texts,
    };
    let right = Tree {
        records: right_records,
        texts: right_texts,
    };
    match calls::structurally_eq(left, right) {
        Ok(equal) => said(equal as usize, 0),
        Err(refusal) => refused(refusal),
    }
}
