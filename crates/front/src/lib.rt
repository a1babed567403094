// What the front command answers: code proved equal to the definition `respond`. What only shows (`explain`, `help`) stands beside it.
//
// Memory is lent as slices, each for itself, as the calls take it. Results and messages go to two writers; an `Err` is a write that failed.
#![tactic(auto)]

ghost use Rattle.std.specs.Prelude.{◌≡◌, ◌≤◌, ◌+◌, ◌*◌, length, map, IfOk, OnOk};
ghost use Rattle.std.specs.Io.KnownBytes.{Appends};
ghost use Rattle.error.specs.Promise.{refusal_of};
ghost use Rattle.front.specs.Outcomes.{accepted, outcome};
ghost use Rattle.front.specs.Differences.{bare_line, marked, both, difference};
ghost use Rattle.front.specs.Respond.{Source, Request, label, said, check_by, same_by, respond, worst, worst_of};
ghost use Rattle.front.specs.Promise.{status_number, IsOutcome, Written, Answers, FirstLine};

use error::Refusal;
use printing::Line;
use std::io;
use std::io::Write;

pub mod explain;
pub mod help;

// What a tree of the longest text takes at most, and its normal text: so much is lent.
pub const WORDS: usize = 28 * 65535 + 7;

pub const TEXTS: usize = 6 * 65535;

pub const OUTPUT: usize = 65535;

// Done or yes, refused or no, no answer.
#[derive(Clone, Copy, Debug, PartialEq, Eq)]
pub enum Status {
    Yes,
    No,
    Neither,
}

impl Status {
    // The exit status.
    pub fn number(self) -> u8
        ensures { result ≡ status_number self }
    {
        match self {
            Status::Yes => 0,
            Status::No => 1,
            Status::Neither => 2,
        }
    }

    // That of two answers.
    pub fn worst(self, other: Status) -> Status
        ensures { status_number result ≡ worst (status_number self) (status_number other) }
    {
        if self.number() < other.number() {
            other
        } else {
            self
        }
    }
}

// What a text comes to: its normal text at the front of the output, or why there is none.
pub fn settle(
    text: &[u8],
    records: &mut [u32],
    texts: &mut [u8],
    output: &mut [u8],
) -> Result<usize, Refusal>
    requires words { 28 * 65535 + 7 ≤ length records.old }
    requires bytes { 6 * 65535 ≤ length texts.old }
    requires room { 65535 ≤ length output.old }
    ensures { IsOutcome (outcome text.now) result output.new }
{
    calls::normal_text(text, records, texts, output)
}

// The name of a file before what is said of it; standard input, whose name is `-`, needs none.
fn put_label<W: Write>(name: &[u8], output: &mut W) -> io::Result<()>
    ensures { OnOk result (Appends (W.contents output.old) (W.contents output.new) (label name.now)) }
{
    if name == b"-".as_slice() {
        return Ok(());
    }
    output.write_all(name)?;
    output.write_all(b": ")
}

// The line of a refusal, behind the file's name.
fn put_refusal<W: Write>(name: &[u8], refusal: Refusal, output: &mut W) -> io::Result<()>
    ensures { OnOk result (Appends (W.contents output.old) (W.contents output.new) (said name.now (refusal_of refusal))) }
{
    put_label(name, output)?;
    write!(output, "{}", Line(refusal))
}

// How long a line is without its line feed.
fn bare_length(line: &[u8]) -> usize
    ensures { result ≡ length (bare_line line.now) }
{
    let mut n = 0;
    for byte in line {
        if *byte == b'\n' {
            return n;
        }
        n += 1;
    }
    n
}

// How long the first line is, with its line feed.
fn line_length(text: &[u8]) -> usize
    ensures { FirstLine text.now result }
{
    let n = bare_length(text);
    if n < text.len() { n + 1 } else { n }
}

// A line behind a mark. That it has no line feed, as the last one may, is said below it.
fn put_marked<W: Write>(mark: &[u8], line: &[u8], output: &mut W) -> io::Result<()>
    ensures { OnOk result (Appends (W.contents output.old) (W.contents output.new) (marked mark.now line.now)) }
{
    let n = bare_length(line);
    output.write_all(mark)?;
    output.write_all(&line[..n])?;
    if n < line.len() {
        output.write_all(b"\n")
    } else {
        output.write_all(b"\n\\ no line feed at the end\n")
    }
}

// Two lines that differ.
fn put_both<W: Write>(left: &[u8], right: &[u8], output: &mut W) -> io::Result<()>
    ensures { OnOk result (Appends (W.contents output.old) (W.contents output.new) (both left.now right.now)) }
{
    put_marked(b"< ", left, output)?;
    put_marked(b"> ", right, output)
}

// The first line in which two texts differ.
fn put_difference<W: Write>(left: &[u8], right: &[u8], output: &mut W) -> io::Result<()>
    ensures { OnOk result (Appends (W.contents output.old) (W.contents output.new) (difference left.now right.now)) }
{
    let mut a = left;
    let mut b = right;
    while !a.is_empty() {
        let m = line_length(a);
        if b.is_empty() {
            return put_marked(b"< ", &a[..m], output);
        }
        let n = line_length(b);
        if a[..m] != b[..n] {
            return put_both(&a[..m], &b[..n], output);
        }
        a = &a[m..];
        b = &b[n..];
    }
    if b.is_empty() {
        return Ok(());
    }
    put_marked(b"> ", &b[..line_length(b)], output)
}

// The normal text of a text.
pub fn normal<W: Write, M: Write>(
    name: &[u8],
    text: &[u8],
    records: &mut [u32],
    texts: &mut [u8],
    out: &mut [u8],
    output: &mut W,
    messages: &mut M,
) -> io::Result<Status>
    requires words { 28 * 65535 + 7 ≤ length records.old }
    requires bytes { 6 * 65535 ≤ length texts.old }
    requires room { 65535 ≤ length out.old }
    ensures { let s : Source = record { name = name.now; text = text.now } in
        Answers (respond (Request.normal s)) (W.contents output.old) (W.contents output.new)
        (M.contents messages.old) (M.contents messages.new) result }
{
    match settle(text, records, texts, out) {
        Ok(n) => {
            output.write_all(&out[..n])?;
            Ok(Status::Yes)
        }
        Err(stop) => {
            put_refusal(name, stop, messages)?;
            Ok(Status::No)
        }
    }
}

// A text is held against its normal text; where it is another, its file is named.
fn put_checked<W: Write>(
    name: &[u8],
    text: &[u8],
    normal: &[u8],
    differences: bool,
    output: &mut W,
) -> io::Result<Status>
    ensures { let s : Source = record { name = name.now; text = text.now } in
        IfOk result (Written (check_by differences s (accepted normal.now)) (W.contents output.old) (W.contents output.new)) }
{
    if text == normal {
        return Ok(Status::Yes);
    }
    output.write_all(name)?;
    output.write_all(b"\n")?;
    if differences {
        put_difference(text, normal, output)?;
    }
    Ok(Status::No)
}

// Whether a text is its own normal text.
pub fn check<W: Write, M: Write>(
    name: &[u8],
    text: &[u8],
    differences: bool,
    records: &mut [u32],
    texts: &mut [u8],
    out: &mut [u8],
    output: &mut W,
    messages: &mut M,
) -> io::Result<Status>
    requires words { 28 * 65535 + 7 ≤ length records.old }
    requires bytes { 6 * 65535 ≤ length texts.old }
    requires room { 65535 ≤ length out.old }
    ensures { let s : Source = record { name = name.now; text = text.now } in
        Answers (respond (Request.check differences s)) (W.contents output.old) (W.contents output.new)
        (M.contents messages.old) (M.contents messages.new) result }
{
    match settle(text, records, texts, out) {
        Ok(n) => put_checked(name, text, &out[..n], differences, output),
        Err(refusal) => {
            put_refusal(name, refusal, messages)?;
            Ok(Status::Neither)
        }
    }
}

// Two normal texts are held against each other.
fn put_compared<W: Write>(
    left: &[u8],
    right: &[u8],
    quiet: bool,
    output: &mut W,
) -> io::Result<Status>
    ensures { (s t : Source) → IfOk result
        (Written (same_by quiet s t (accepted left.now) (accepted right.now)) (W.contents output.old) (W.contents output.new)) }
{
    if left == right {
        return Ok(Status::Yes);
    }
    if !quiet {
        put_difference(left, right, output)?;
    }
    Ok(Status::No)
}

// Whether two grammars agree.
pub fn same<W: Write, M: Write>(
    left_name: &[u8],
    left: &[u8],
    right_name: &[u8],
    right: &[u8],
    quiet: bool,
    records: &mut [u32],
    texts: &mut [u8],
    left_out: &mut [u8],
    right_out: &mut [u8],
    output: &mut W,
    messages: &mut M,
) -> io::Result<Status>
    requires words { 28 * 65535 + 7 ≤ length records.old }
    requires bytes { 6 * 65535 ≤ length texts.old }
    requires left_room { 65535 ≤ length left_out.old }
    requires right_room { 65535 ≤ length right_out.old }
    ensures { let s : Source = record { name = left_name.now; text = left.now } in
        let t : Source = record { name = right_name.now; text = right.now } in
        Answers (respond (Request.same quiet s t)) (W.contents output.old) (W.contents output.new)
        (M.contents messages.old) (M.contents messages.new) result }
{
    match settle(left, records, texts, left_out) {
        Ok(m) => match settle(right, records, texts, right_out) {
            Ok(n) => put_compared(&left_out[..m], &right_out[..n], quiet, output),
            Err(refusal) => {
                put_refusal(right_name, refusal, messages)?;
                Ok(Status::Neither)
            }
        },
        Err(first) => {
            put_refusal(left_name, first, messages)?;
            if let Err(second) = settle(right, records, texts, right_out) {
                put_refusal(right_name, second, messages)?;
            }
            Ok(Status::Neither)
        }
    }
}

// Whether a text is refused, and by what. What explains the refusal is `explain`, which no contract speaks of.
pub fn why<W: Write>(
    name: &[u8],
    text: &[u8],
    records: &mut [u32],
    texts: &mut [u8],
    out: &mut [u8],
    output: &mut W,
) -> io::Result<Status>
    requires words { 28 * 65535 + 7 ≤ length records.old }
    requires bytes { 6 * 65535 ≤ length texts.old }
    requires room { 65535 ≤ length out.old }
    ensures { let s : Source = record { name = name.now; text = text.now } in
        IfOk result (Written (respond (Request.why s)) (W.contents output.old) (W.contents output.new)) }
{
    match settle(text, records, texts, out) {
        Ok(_) => {
            put_label(name, output)?;
            output.write_all(b"accepted\n")?;
            Ok(Status::Yes)
        }
        Err(refusal) => {
            put_refusal(name, refusal, output)?;
            Ok(Status::No)
        }
    }
}

// The status of several answers.
pub fn worst_of(statuses: &[Status]) -> Status
    ensures { status_number result ≡ worst_of (map status_number statuses.now) }
{
    let mut all = Status::Yes;
    for status in statuses {
        all = all.worst(*status);
    }
    all
}
