// Standard input to standard output: the normal text of a grammar file, or the line of its refusal. The exit status says which: 0 or 1, and
// 2 where standard input cannot be read or standard output not be written.
#![tactic(auto)]

ghost use Rattle.std.specs.Prelude.{◌≡◌, IfSome, IfOk, OnOk};
ghost use Rattle.std.specs.Io.KnownBytes.{Appends};
ghost use Rattle.grammar.specs.Program.{printed};
ghost use Rattle.normal.specs.Answer.{prints_text};

use anyhow::{Context, Result};
use printing::Line;
use std::io;
use std::io::{Read, Write};
use std::process::ExitCode;

// What is printed for a text: its normal text, or the line of its refusal. The answer is whether it was the first.
fn print<W: Write>(text: &[u8], output: &mut W) -> io::Result<bool>
    ensures text { OnOk result (Appends (W.contents output.old) (W.contents output.new) (printed text.now)) }
    ensures which { IfOk result (λ is_text. is_text ≡ prints_text text.now) }
{
    let mut records = [0u32; printing::WORDS];
    let mut texts = [0u8; printing::TEXTS];
    let mut out = [0u8; printing::OUTPUT];
    match calls::normal_text(text, &mut records, &mut texts, &mut out) {
        Ok(n) => {
            output.write_all(&out[..n])?;
            Ok(true)
        }
        Err(refusal) => {
            write!(output, "{}", Line(refusal))?;
            Ok(false)
        }
    }
}

// One byte more than a text may have is read, so that a longer one is refused.
fn run<R: Read, W: Write>(input: &mut R, output: &mut W) -> Result<bool>
    ensures text { OnOk result (IfSome (R.remaining input.old)
        (λ text. Appends (W.contents output.old) (W.contents output.new) (printed text))) }
    ensures which { IfSome (R.remaining input.old) (λ text. IfOk result (λ is_text. is_text ≡ prints_text text)) }
{
    let mut text = [0u8; 65536];
    let n = printing::read_all(input, &mut text).context("normal: cannot read standard input")?;
    print(&text[..n], output).context("normal: cannot write standard output")
}

fn main(rt: HostRuntime) -> ExitCode {
    match run(&mut rt.stdin(), &mut rt.stdout()) {
        Ok(is_text) => ExitCode::from(if is_text { 0 } else { 1 }),
        Err(e) => {
            let _ = writeln!(rt.stderr(), "Error: {e:?}");
            ExitCode::from(2)
        }
    }
}
