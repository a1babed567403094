// Files, read up to one byte more than a text may have, and replaced whole or not at all.
use std::fs::{File, Metadata, OpenFile, OpenOptions, Permissions};
use std::io::{Error, ErrorKind, Write};
use std::{fs, io, process, str};

// The system's number for a file that is not there.
const NO_SUCH_FILE: i32 = 2;

// The path that a name is; std opens none that is not UTF-8.
fn path_of(name: &[u8]) -> io::Result<&str> {
    match str::from_utf8(name) {
        Ok(path) => Ok(path),
        Err(_) => Err(Error::new(
            ErrorKind::InvalidInput,
            "its name is not UTF-8; hand it over on standard input",
        )),
    }
}

// Reads a file, or standard input under the name `-`.
pub fn read(rt: &HostRuntime, name: &[u8], text: &mut [u8]) -> io::Result<usize> {
    if name == super::arguments::STANDARD {
        return printing::read_all(&mut rt.stdin(), text);
    }
    let mut file = File::open(rt, path_of(name)?)?;
    printing::read_all(&mut file, text)
}

// Fills a file that was made just now: its bytes, the old file's permissions, and all of it safe on the disk.
fn fill(file: &mut File, permissions: Option<Permissions>, bytes: &[u8]) -> io::Result<()> {
    file.write_all(bytes)?;
    if let Some(permissions) = permissions {
        file.set_permissions(permissions)?;
    }
    file.sync_all()
}

// Writes a new file and gives it the name; where something fails, the new one is removed and the old one is as it was.
fn put_in_place(
    rt: &HostRuntime,
    beside: &str,
    path: &str,
    permissions: Option<Permissions>,
    bytes: &[u8],
) -> io::Result<()> {
    let mut file = File::create_new(rt, beside)?;
    let filled = fill(&mut file, permissions, bytes);
    drop(file);
    let placed = match filled {
        Ok(()) => fs::rename(rt, beside, path),
        Err(e) => Err(e),
    };
    if placed.is_err() {
        let _ = fs::remove_file(rt, beside);
    }
    placed
}

// The name of the new file: in the same folder, so that it can be renamed.
fn replace(
    rt: &HostRuntime,
    path: &str,
    permissions: Option<Permissions>,
    bytes: &[u8],
) -> io::Result<()> {
    let number = process::id(rt.process());
    let beside = match path.rsplit_once('/') {
        Some((folder, _)) => format!(in rt.alloc(); "{folder}/.hemvuda-{number}")?,
        None => format!(in rt.alloc(); ".hemvuda-{number}")?,
    };
    put_in_place(rt, beside.as_str(), path, permissions, bytes)
}

// Writes a file: one that is there is replaced, links are followed, and what is no regular file (a device, a pipe) is written into.
pub fn write(rt: &HostRuntime, name: &[u8], bytes: &[u8]) -> io::Result<()> {
    let path = path_of(name)?;
    if !fs::exists(rt, path)? {
        // a link that leads nowhere is not replaced
        return match fs::symlink_metadata(rt, path) {
            Ok(_) => Err(Error::from_raw_os_error(NO_SUCH_FILE)),
            Err(_) => replace(rt, path, None, bytes),
        };
    }
    // what may not be written is not replaced either
    let mut old = OpenOptions::new().write(true).open(rt, path)?;
    let found = old.metadata()?;
    if !found.is_file() {
        return old.write_all(bytes);
    }
    drop(old);
    let real = fs::canonicalize(rt, path)?;
    replace(
        rt,
        real.as_path().as_str(),
        Some(found.permissions()),
        bytes,
    )
}
