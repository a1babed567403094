// The library's calls. What a caller lends is slices of its own, each lent for itself (no heap; C hands them over so): `texts` takes the
// bytes of a tree's texts and `output` a normal text, which are not parallel.
#![tactic(auto)]

ghost use Rattle.writer.specs.Promise.{Stored as StoredIn};
ghost use Rattle.calls.specs.Demands.{Answers, Writes, OwnAgain};
ghost use Rattle.calls.specs.Promise.{CheckedTo, SizedTo, ReadingTo, MeasureTo, ReadTo, Few, WriteTo, NormalTo, CompareTo};

use error::{Cause, Refusal, Stop};
use reader::blocks::Extent;
use tree::Tree;

// The most bytes that a text, or a normal text, may have.
const LONGEST: usize = 65535;

// A text that is too long, or not UTF-8, is not read.
fn check_text(text: &[u8]) -> Result<(), Stop>
    ensures { CheckedTo text.now result }
{
    if LONGEST < text.len() {
        return Err(Stop {
            cause: Cause::TooLong,
            place: 0,
        });
    }
    characters::check(text)?;
    Ok(())
}

// How many words and bytes the tree of a text takes, or what stops its reading.
fn extent(text: &[u8]) -> Result<Extent, Stop>
    ensures sizes { SizedTo text.now result }
    ensures few { Few text.now }
{
    check_text(text)?;
    input::measure(text)
}

// The tree of a text, stored over the front of the words and bytes that are lent, or what stops its reading.
fn parse(text: &[u8], records: &mut [u32], texts: &mut [u8]) -> Result<Extent, Stop>
    ensures reading { ReadingTo text.now records.old texts.old result records.new texts.new }
    ensures few { Few text.now }
{
    check_text(text)?;
    input::parse(text, records, texts)
}

// How many words and bytes the tree of a text takes, or why there is none. Nothing is lent for it, and it is not stored.
pub fn measure(text: &[u8]) -> Result<Extent, Refusal>
    ensures outcome { MeasureTo text.now result }
    ensures few { Few text.now }
{
    extent(text).map_err(|stop| error::refuse(text, stop))
}

// How many words and bytes the tree of a text takes, stored over the front of those that are lent, or why there is none. A refusal leaves
// both as they were. By a `match` and not `map_err`: two edits that the gate must refuse (`invented_count`, `invented_place`) change a
// value in its arms.
pub fn read(text: &[u8], records: &mut [u32], texts: &mut [u8]) -> Result<Extent, Refusal>
    ensures outcome { ReadTo text.now records.old texts.old result records.new texts.new }
    ensures answers { Answers text.now records.old texts.old result records.new texts.new }
    ensures few { Few text.now }
{
    match parse(text, records, texts) {
        Ok(stored) => Ok(stored),
        Err(stop) => Err(error::refuse(text, stop)),
    }
}

// The normal text of a tree that is stored, over the front of the output, or 24 at the start of the text that it was read from.
fn write(text: &[u8], tree: Tree, output: &mut [u8]) -> Result<usize, Refusal>
    requires { StoredIn tree.records.now tree.texts.now }
    ensures { WriteTo text.now tree.entry.records.now tree.entry.texts.now output.old result output.new }
{
    writer::write_normal_text(tree, LONGEST, output).map_err(|_| {
        error::refuse(
            text,
            Stop {
                cause: Cause::OutputFull,
                place: 0,
            },
        )
    })
}

// How many bytes the normal text of a text has, written over the front of the output, or why there is none; its tree is stored as `read`
// does. A refusal of the reading leaves all as it was, one for want of output leaves the output as it was.
pub fn normal_text(
    text: &[u8],
    records: &mut [u32],
    texts: &mut [u8],
    output: &mut [u8],
) -> Result<usize, Refusal>
    ensures outcome { NormalTo text.now records.old texts.old output.old result records.new texts.new output.new }
    ensures writes { Writes text.now records.old texts.old output.old result records.new texts.new output.new }
    ensures own { OwnAgain text.now records.old texts.old output.old result output.new }
    ensures few { Few text.now }
{
    let stored = read(text, records, texts)?;
    let tree = Tree {
        records: &records[..stored.words],
        texts,
    };
    write(text, tree, output)
}

// Whether two stored expressions are equal, as `structurally_eq` of the Rust has it, or that one of them is no tree.
pub fn structurally_eq(left: Tree, right: Tree) -> Result<bool, Refusal>
    ensures { CompareTo left.entry.records.now left.entry.texts.now right.entry.records.now right.entry.texts.now result }
{
    left.structurally_eq(right).map_err(|_| {
        error::refuse(
            left.texts,
            Stop {
                cause: Cause::NotATree,
                place: 0,
            },
        )
    })
}
