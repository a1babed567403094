// The front command. What it answers is defined and proved in `front`; here are arguments, files and statuses.
#![tactic(auto)]

use front::Status;
use std::env::{Env, FillError};
use std::io;
use std::io::Write;
use std::process::ExitCode;

mod arguments;
mod files;
mod tools;

// The most bytes that one argument can have.
const ARGUMENT: usize = 131072;

// The arguments behind the program's name, as bytes: the name of a file need not be UTF-8.
fn words(rt: &HostRuntime) -> io::Result<Vec<Vec<u8>>> {
    let mut room = vec![in rt.alloc(); 0u8; ARGUMENT]?;
    let mut all = Vec::new(rt.alloc());
    for i in 1..usize::MAX {
        match rt.arg(i, room.as_mut_slice()) {
            Ok(n) => {
                let n = n.min(room.len());
                all.push(room[..n].to_vec(rt.alloc())?)?;
            }
            Err(FillError::NotPresent) => break,
            Err(FillError::TooLong) => return Err(io::Error::from(
                io::ErrorKind::ArgumentListTooLong,
            )),
        }
    }
    Ok(all)
}

fn run(rt: &HostRuntime) -> io::Result<Status> {
    let all = words(rt)?;
    tools::answer(rt, arguments::parse(rt.alloc(), &all)?)
}

// A failure that was not yet said on standard error is said here. Where that cannot be written, the status alone tells.
fn main(rt: HostRuntime) -> ExitCode {
    let status = run(&rt).unwrap_or_else(|e| {
        let _ = writeln!(rt.stderr(), "hemvuda: {e}");
        Status::Neither
    });
    ExitCode::from(status.number())
}
