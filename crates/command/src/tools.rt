// What each tool does with its files. Results and messages are collected, and written once at the end.
ghost use Rattle.std.specs.Prelude.{◌≤◌, ◌*◌, ◌+◌, length};

use crate::arguments::{Asked, Misuse, Options, STANDARD, Target, Tool};
use crate::files;
use front::{Status, explain, help};
use std::io;
use std::io::{Error, Write};

// One byte more than a text may have, so that a longer one is refused.
const TEXT: usize = 65536;

// What goes to standard output and to standard error.
#[derive(Drop)]
struct Told {
    output: Vec<u8>,
    messages: Vec<u8>,
}

// Why a file could not be read or written.
fn complain(name: &[u8], error: &Error, messages: &mut Vec<u8>) -> io::Result<Status> {
    messages.write_all(b"hemvuda: ")?;
    if name == STANDARD {
        messages.write_all(b"standard input")?;
    } else {
        messages.write_all(name)?;
    }
    writeln!(messages, ": {error}")?;
    Ok(Status::Neither)
}

// Writes all that was collected. What cannot be written whole is no answer.
fn deliver(rt: &HostRuntime, status: Status, told: &Told) -> Status {
    let mut worst = status;
    let written = rt.stdout().write_all(&told.output);
    if rt.stderr().write_all(&told.messages).is_err() {
        worst = Status::Neither;
    }
    if let Err(e) = written {
        let _ = writeln!(rt.stderr(), "hemvuda: standard output: {e}");
        worst = Status::Neither;
    }
    worst
}

// The normal text of one text goes where it is asked to; nothing is written for a text that is refused.
fn normal(
    rt: &HostRuntime,
    name: &[u8],
    text: &[u8],
    target: Target<'_>,
    records: &mut [u32],
    texts: &mut [u8],
    out: &mut [u8],
    told: &mut Told,
) -> io::Result<Status>
    requires words { 28 * 65535 + 7 ≤ length records.old }
    requires bytes { 6 * 65535 ≤ length texts.old }
    requires room { 65535 ≤ length out.old }
{
    let path = match target {
        Target::Standard => STANDARD,
        Target::File(path) => path,
        Target::InPlace => name,
    };
    if path == STANDARD {
        return front::normal(
            name,
            text,
            records,
            texts,
            out,
            &mut told.output,
            &mut told.messages,
        );
    }
    let mut held = Vec::new(rt.alloc());
    let status = front::normal(
        name,
        text,
        records,
        texts,
        out,
        &mut held,
        &mut told.messages,
    )?;
    if status != Status::Yes {
        return Ok(status);
    }
    if let Target::InPlace = target {
        if held.as_slice() == text {
            return Ok(status);
        }
    }
    match files::write(rt, path, &held) {
        Ok(()) => Ok(status),
        Err(e) => complain(path, &e, &mut told.messages),
    }
}

// The answer about one file.
fn one(
    rt: &HostRuntime,
    asked: &Asked<'_>,
    name: &[u8],
    room: &mut [u8],
    records: &mut [u32],
    texts: &mut [u8],
    out: &mut [u8],
    told: &mut Told,
) -> io::Result<Status>
    requires words { 28 * 65535 + 7 ≤ length records.old }
    requires bytes { 6 * 65535 ≤ length texts.old }
    requires room { 65535 ≤ length out.old }
{
    let n = match files::read(rt, name, room) {
        Ok(n) => n.min(room.len()),
        Err(e) => return complain(name, &e, &mut told.messages),
    };
    let text = &room[..n];
    match asked.tool {
        Tool::Check => front::check(
            name,
            text,
            asked.options.differences,
            records,
            texts,
            out,
            &mut told.output,
            &mut told.messages,
        ),
        Tool::Why => {
            let status = front::why(name, text, records, texts, out, &mut told.output)?;
            explain::explain(text, records, texts, out, &mut told.output)?;
            Ok(status)
        }
        _ => normal(
            rt,
            name,
            text,
            asked.options.target,
            records,
            texts,
            out,
            told,
        ),
    }
}

// The worst of the answers about all files.
fn each(rt: &HostRuntime, asked: &Asked<'_>, told: &mut Told) -> io::Result<Status> {
    let mut records = vec![in rt.alloc(); 0u32; front::WORDS]?;
    let mut texts = vec![in rt.alloc(); 0u8; front::TEXTS]?;
    let mut out = vec![in rt.alloc(); 0u8; front::OUTPUT]?;
    let mut room = vec![in rt.alloc(); 0u8; TEXT]?;
    each_lent(
        rt,
        asked,
        &mut room,
        &mut records,
        &mut texts,
        &mut out,
        told,
    )
}

fn each_lent(
    rt: &HostRuntime,
    asked: &Asked<'_>,
    room: &mut [u8],
    records: &mut [u32],
    texts: &mut [u8],
    out: &mut [u8],
    told: &mut Told,
) -> io::Result<Status>
    requires words { 28 * 65535 + 7 ≤ length records.old }
    requires bytes { 6 * 65535 ≤ length texts.old }
    requires room { 65535 ≤ length out.old }
{
    let mut statuses = Vec::new(rt.alloc());
    if asked.files.is_empty() {
        return one(rt, asked, STANDARD, room, records, texts, out, told);
    }
    for name in &asked.files {
        statuses.push(one(rt, asked, name, room, records, texts, out, told)?)?;
    }
    Ok(front::worst_of(&statuses))
}

// The answer about two files.
fn same(rt: &HostRuntime, asked: &Asked<'_>, told: &mut Told) -> io::Result<Status> {
    let (Some(&left), Some(&right)) = (asked.files.first(), asked.files.get(1)) else {
        return Ok(Status::Neither);
    };
    let mut left_text = vec![in rt.alloc(); 0u8; TEXT]?;
    let mut right_text = vec![in rt.alloc(); 0u8; TEXT]?;
    let first = files::read(rt, left, &mut left_text);
    let second = files::read(rt, right, &mut right_text);
    if let Err(e) = &first {
        complain(left, e, &mut told.messages)?;
    }
    if let Err(e) = &second {
        complain(right, e, &mut told.messages)?;
    }
    let (Ok(m), Ok(n)) = (first, second) else {
        return Ok(Status::Neither);
    };
    let mut records = vec![in rt.alloc(); 0u32; front::WORDS]?;
    let mut texts = vec![in rt.alloc(); 0u8; front::TEXTS]?;
    let mut left_out = vec![in rt.alloc(); 0u8; front::OUTPUT]?;
    let mut right_out = vec![in rt.alloc(); 0u8; front::OUTPUT]?;
    front::same(
        left,
        &left_text[..m.min(left_text.len())],
        right,
        &right_text[..n.min(right_text.len())],
        asked.options.quiet,
        &mut records,
        &mut texts,
        &mut left_out,
        &mut right_out,
        &mut told.output,
        &mut told.messages,
    )
}

// The number that a word says in decimal.
fn number_of(word: &[u8]) -> Option<usize> {
    str::from_utf8(word).ok()?.parse().ok()
}

// The usage, a tool's, or a cause.
fn explained(files: &[&[u8]], told: &mut Told) -> io::Result<Status> {
    let Some(word) = files.first() else {
        told.output.write_all(help::USAGE.as_bytes())?;
        return Ok(Status::Yes);
    };
    if let Some(text) = help::tool(word) {
        told.output.write_all(text.as_bytes())?;
        return Ok(Status::Yes);
    }
    if let Some(number) = number_of(word) {
        if help::put_cause(number, &mut told.output)? {
            return Ok(Status::Yes);
        }
    }
    told.messages
        .write_all(b"hemvuda: there is no tool and no cause ")?;
    told.messages.write_all(word)?;
    told.messages.write_all(b"\n")?;
    told.messages.write_all(help::HINT.as_bytes())?;
    Ok(Status::Neither)
}

// The name of a tool, as its usage is found.
fn name_of(tool: Tool) -> &'static [u8] {
    match tool {
        Tool::Normal => b"normal",
        Tool::Check => b"check",
        Tool::Same => b"same",
        Tool::Why => b"why",
        Tool::Help => b"help",
        Tool::Version => b"version",
    }
}

fn collect(rt: &HostRuntime, asked: &Asked<'_>, told: &mut Told) -> io::Result<Status> {
    if asked.options.help {
        return explained(&[name_of(asked.tool)], told);
    }
    match asked.tool {
        Tool::Normal | Tool::Check | Tool::Why => each(rt, asked, told),
        Tool::Same => same(rt, asked, told),
        Tool::Help => explained(&asked.files, told),
        Tool::Version => {
            told.output.write_all(help::VERSION.as_bytes())?;
            Ok(Status::Yes)
        }
    }
}

// How the arguments are not to be.
fn misused(misuse: Misuse<'_>, told: &mut Told) -> io::Result<Status> {
    told.messages.write_all(b"hemvuda: ")?;
    told.messages.write_all(misuse.reason.as_bytes())?;
    told.messages.write_all(misuse.word)?;
    told.messages.write_all(b"\n")?;
    told.messages.write_all(help::HINT.as_bytes())?;
    Ok(Status::Neither)
}

// What is asked is done, or it is said why it cannot be.
pub fn answer(rt: &HostRuntime, asked: Result<Asked<'_>, Misuse<'_>>) -> io::Result<Status> {
    let mut told = Told {
        output: Vec::new(rt.alloc()),
        messages: Vec::new(rt.alloc()),
    };
    let status = match asked {
        Ok(asked) => collect(rt, &asked, &mut told)?,
        Err(misuse) => misused(misuse, &mut told)?,
    };
    Ok(deliver(rt, status, &told))
}
