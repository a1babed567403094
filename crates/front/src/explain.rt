// What only shows why a text is refused: the line with a caret under the place, and what the place holds. No contract speaks of it.
ghost use Rattle.std.specs.Prelude.{◌≤◌, ◌*◌, ◌+◌, length};

use crate::{help, settle};
use characters::decode;
use error::{Cause, Refusal};
use std::io::Write;
use std::{io, str};
use tree::Tree;

// How a line's bytes are shown: as they are, or as the blanks before a caret.
#[derive(Clone, Copy, Debug, PartialEq, Eq)]
enum Shown {
    Plain,
    Blank,
}

// A character: a tab stays in both, so that the caret stands right; other codes that only control a terminal are a `?`.
fn put_char<W: Write>(c: char, shown: Shown, output: &mut W) -> io::Result<()> {
    match shown {
        _ if c == '\t' => output.write_all(b"\t"),
        Shown::Blank => output.write_all(b" "),
        Shown::Plain if c.is_control() => output.write_all(b"?"),
        Shown::Plain => write!(output, "{c}"),
    }
}

fn put_text<W: Write>(text: &str, shown: Shown, output: &mut W) -> io::Result<()> {
    for c in text.chars() {
        put_char(c, shown, output)?;
    }
    Ok(())
}

// Bytes of a line; one that is not UTF-8 is a `?`.
fn put_shown<W: Write>(line: &[u8], shown: Shown, output: &mut W) -> io::Result<()> {
    let mut rest = line;
    while !rest.is_empty() {
        match str::from_utf8(rest) {
            Ok(text) => return put_text(text, shown, output),
            Err(e) => {
                let n = e.valid_up_to().min(rest.len() - 1);
                if let Ok(text) = str::from_utf8(&rest[..n]) {
                    put_text(text, shown, output)?;
                }
                put_char('\u{1}', shown, output)?;
                rest = &rest[n + 1..];
            }
        }
    }
    Ok(())
}

// The line of a refusal, and a caret under its place.
fn put_place<W: Write>(text: &[u8], refusal: Refusal, output: &mut W) -> io::Result<()> {
    let place = refusal.place.min(text.len());
    let start = place.saturating_sub(refusal.column);
    let from_place = &text[place..];
    let rest = from_place
        .iter()
        .position(|b| *b == b'\n')
        .unwrap_or(from_place.len())
        .min(from_place.len());
    put_shown(&text[start..place], Shown::Plain, output)?;
    let behind = &from_place[..rest];
    put_shown(
        behind.strip_suffix(b"\r").unwrap_or(behind),
        Shown::Plain,
        output,
    )?;
    output.write_all(b"\n")?;
    put_shown(&text[start..place], Shown::Blank, output)?;
    output.write_all(b"^\n")
}

// The bytes that are not UTF-8, with those behind them, as many as a character may have.
fn put_bytes<W: Write>(text: &[u8], place: usize, output: &mut W) -> io::Result<()> {
    let from_place = &text[place.min(text.len())..];
    output.write_all(b"Bytes from there on:")?;
    for byte in &from_place[..from_place.len().min(4)] {
        write!(output, " {byte:02X}")?;
    }
    output.write_all(b"\n")
}

// Why a text is refused, below the line of its refusal: nothing where it is accepted. A text that is too long, or whose normal text is, has
// no place that says more.
pub fn explain<W: Write>(
    text: &[u8],
    records: &mut [u32],
    texts: &mut [u8],
    out: &mut [u8],
    output: &mut W,
) -> io::Result<()>
    requires words { 28 * 65535 + 7 ≤ length records.old }
    requires bytes { 6 * 65535 ≤ length texts.old }
    requires room { 65535 ≤ length out.old }
{
    let Err(refusal) = settle(text, records, texts, out) else {
        return Ok(());
    };
    match refusal.cause {
        Cause::TooLong => writeln!(output, "It has more than 65535 bytes.")?,
        Cause::OutputFull => put_needed(text, records, texts, output)?,
        _ => put_place(text, refusal, output)?,
    }
    if let Cause::NotUtf8 = refusal.cause {
        put_bytes(text, refusal.place, output)?;
    }
    help::put_remedy(refusal.cause.number() as usize, output)
}

// How many bytes the normal text would have.
fn put_needed<W: Write>(
    text: &[u8],
    records: &mut [u32],
    texts: &mut [u8],
    output: &mut W,
) -> io::Result<()> {
    let Ok(stored) = calls::read(text, records, texts) else {
        return Ok(());
    };
    let tree = Tree {
        records: &records[..stored.words],
        texts,
    };
    let needed = writer::normal_text(tree, &mut []);
    writeln!(
        output,
        "Its normal text has {needed} bytes; at most 65535 are allowed."
    )
}

#[cfg(test)]
mod tests {
    use super::*;
    use std::test::Fail;

    fn explained(rt: &HostRuntime, text: &[u8]) -> io::Result<Vec<u8>> {
        let mut records = vec![in rt.alloc(); 0u32; crate::WORDS]?;
        let mut texts = vec![in rt.alloc(); 0u8; crate::TEXTS]?;
        let mut out = vec![in rt.alloc(); 0u8; crate::OUTPUT]?;
        let mut shown = Vec::new(rt.alloc());
        explain(text, &mut records, &mut texts, &mut out, &mut shown)?;
        Ok(shown)
    }

    // A tab stays, a character counts once, a byte that is not UTF-8 is shown, as are the bytes from it on.
    #[test]
    fn tabs_and_bytes(rt: HostRuntime) -> Result<(), Fail> {
        let shown = explained(&rt, b"@top T {\n\t\"\xC3\xA9\xC3(x\"}\n")?;
        assert!(rt;
            shown.starts_with(
                b"\t\"\xC3\xA9?(x\"}\n\t  ^\nBytes from there on: C3 28 78 22\nMeaning: "
            )
        );
        Ok(())
    }

    // A carriage return at the end of the line is left out.
    #[test]
    fn line_of_the_place(rt: HostRuntime) -> Result<(), Fail> {
        let shown = explained(&rt, b"@top T {\r\n a % b\r\n}")?;
        assert!(rt; shown.starts_with(b" a % b\n   ^\nMeaning: "));
        Ok(())
    }

    #[test]
    fn nothing_of_an_accepted_text(rt: HostRuntime) -> Result<(), Fail> {
        let shown = explained(&rt, b"@top T { }")?;
        assert!(rt; shown.is_empty());
        Ok(())
    }
}
