// Replays stored texts: prints what the calls answer to each. The gate holds that against what the Rust and the second program answered
// to the same texts (compare/vectors has how both files were made).
//
// Texts come on standard input, each ended by the byte 0x1E, which stands in none of them. For each its number is printed, and then the
// line of a refusal; or a line for each record, the bytes of the texts in hexadecimal, and what `normal` prints.
#![tactic(auto)]

use anyhow::{Context, Result};
use printing::Line;
use reader::blocks::Extent;
use std::io;
use std::io::{Read, Write};

const END: u8 = 0x1E;

// What is lent to the calls: as much as by the program `normal`.
#[derive(Drop)]
struct Lent {
    records: [u32; printing::WORDS],
    texts: [u8; printing::TEXTS],
    out: [u8; printing::OUTPUT],
}

// Seven words a line.
fn print_words<W: Write>(records: &[u32], to: &mut W) -> io::Result<()> {
    for (i, word) in records.iter().enumerate() {
        let end = if i % 7 == 6 { '\n' } else { ' ' };
        write!(to, "{word}{end}")?;
    }
    Ok(())
}

fn print_bytes<W: Write>(texts: &[u8], to: &mut W) -> io::Result<()> {
    for byte in texts {
        write!(to, "{byte:02x}")?;
    }
    writeln!(to)
}

fn print_normal<W: Write>(text: &[u8], lent: &mut Lent, to: &mut W) -> io::Result<()> {
    let Lent {
        records,
        texts,
        out,
    } = lent;
    match calls::normal_text(text, records, texts, out) {
        Ok(n) => to.write_all(&out[..n.min(out.len())]),
        Err(refusal) => write!(to, "{}", Line(refusal)),
    }
}

fn replay<W: Write>(text: &[u8], lent: &mut Lent, to: &mut W) -> io::Result<()> {
    match calls::read(text, &mut lent.records, &mut lent.texts) {
        Ok(Extent { words, bytes }) => {
            print_words(&lent.records[..words.min(lent.records.len())], to)?;
            print_bytes(&lent.texts[..bytes.min(lent.texts.len())], to)?;
            print_normal(text, lent, to)
        }
        Err(refusal) => write!(to, "{}", Line(refusal)),
    }
}

fn replay_all<W: Write>(input: &[u8], lent: &mut Lent, to: &mut W) -> io::Result<()> {
    for (number, ended) in input.split_inclusive(|byte| *byte == END).enumerate() {
        writeln!(to, "text {number}")?;
        replay(ended.strip_suffix(&[END]).unwrap_or(ended), lent, to)?;
    }
    Ok(())
}

fn run<R: Read, W: Write>(from: &mut R, input: &mut [u8], to: &mut W) -> Result<()> {
    let mut lent = Lent {
        records: [0; printing::WORDS],
        texts: [0; printing::TEXTS],
        out: [0; printing::OUTPUT],
    };
    let n = printing::read_all(from, input).context("vectors: cannot read standard input")?;
    replay_all(&input[..n], &mut lent, to).context("vectors: cannot write standard output")
}

fn main(rt: HostRuntime) -> Result<()> {
    let mut input = [0u8; 262144];
    run(&mut rt.stdin(), &mut input, &mut rt.stdout())
}
