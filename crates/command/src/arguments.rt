// What the arguments ask for.
use std::alloc::{AllocError, Global};

// What a tool may be told.
#[derive(Clone, Copy, Debug, PartialEq, Eq)]
pub enum Tool {
    Normal,
    Check,
    Same,
    Why,
    Help,
    Version,
}

// Where the normal text goes.
#[derive(Clone, Copy)]
pub enum Target<'a> {
    Standard,
    File(&'a [u8]),
    InPlace,
}

#[derive(Clone, Copy)]
pub struct Options<'a> {
    pub differences: bool,
    pub quiet: bool,
    pub target: Target<'a>,
    pub help: bool,
}

#[derive(Drop)]
pub struct Asked<'a> {
    pub tool: Tool,
    pub options: Options<'a>,
    pub files: Vec<&'a [u8]>,
}

// Why the arguments ask for nothing, and the word that is meant.
#[derive(Clone, Copy)]
pub struct Misuse<'a> {
    pub reason: &'static str,
    pub word: &'a [u8],
}

pub const STANDARD: &[u8] = b"-";

fn tool_of(word: &[u8]) -> Option<Tool> {
    match word {
        b"normal" => Some(Tool::Normal),
        b"check" => Some(Tool::Check),
        b"same" => Some(Tool::Same),
        b"why" => Some(Tool::Why),
        b"help" | b"--help" | b"-h" => Some(Tool::Help),
        b"version" | b"--version" => Some(Tool::Version),
        _ => None,
    }
}

// What an option says; `-o` is followed by a file.
#[derive(Clone, Copy, Debug, PartialEq, Eq)]
enum Switch {
    FilesFollow,
    Help,
    Differences,
    Quiet,
    InPlace,
    Output,
}

fn switch_of(tool: Tool, word: &[u8]) -> Option<Switch> {
    match word {
        b"--" => Some(Switch::FilesFollow),
        b"--help" | b"-h" => Some(Switch::Help),
        b"-d" if tool == Tool::Check => Some(Switch::Differences),
        b"-q" if tool == Tool::Same => Some(Switch::Quiet),
        b"-w" if tool == Tool::Normal => Some(Switch::InPlace),
        b"-o" if tool == Tool::Normal => Some(Switch::Output),
        _ => None,
    }
}

// Standard input is `-` alone.
fn is_option(word: &[u8]) -> bool {
    word.len() > 1 && word.starts_with(b"-")
}

// Why the files do not suit the tool.
fn unsuited(asked: &Asked<'_>) -> Option<&'static str> {
    let count = asked.files.len();
    let standard = asked.files.iter().filter(|f| **f == STANDARD).count();
    if standard > 1 {
        return Some("standard input is named twice");
    }
    match asked.tool {
        Tool::Normal => match asked.options.target {
            Target::InPlace if count == 0 => Some("no file for -w"),
            Target::InPlace if standard > 0 => Some("standard input cannot be written in place"),
            Target::InPlace => None,
            _ if count > 1 => Some("several files, and no -w"),
            _ => None,
        },
        Tool::Check => None,
        Tool::Same if count != 2 => Some("same takes two files"),
        Tool::Same => None,
        Tool::Why if count > 1 => Some("why takes one file"),
        Tool::Why => None,
        Tool::Help if count > 1 => Some("help takes one tool or number"),
        Tool::Help => None,
        Tool::Version if count > 0 => Some("version takes no file"),
        Tool::Version => None,
    }
}

fn misused<'a>(reason: &'static str, word: &'a [u8]) -> Misuse<'a> {
    Misuse { reason, word }
}

// What the arguments ask for, or why nothing.
pub fn parse<'a>(
    alloc: Global,
    words: &'a [Vec<u8>],
) -> Result<Result<Asked<'a>, Misuse<'a>>, AllocError> {
    let Some((first, rest)) = words.split_first() else {
        return Ok(Err(misused("no tool is named", b"")));
    };
    let Some(tool) = tool_of(first.as_slice()) else {
        return Ok(Err(misused("there is no tool ", first.as_slice())));
    };
    let mut options = Options {
        differences: false,
        quiet: false,
        target: Target::Standard,
        help: false,
    };
    let mut files = Vec::new(alloc);
    let mut only_files = false;
    let mut names_output = false;
    for word in rest {
        let word = word.as_slice();
        if names_output {
            names_output = false;
            options.target = Target::File(word);
            continue;
        }
        if only_files || !is_option(word) {
            files.push(word)?;
            continue;
        }
        match switch_of(tool, word) {
            Some(Switch::FilesFollow) => only_files = true,
            Some(Switch::Help) => options.help = true,
            Some(Switch::Differences) => options.differences = true,
            Some(Switch::Quiet) => options.quiet = true,
            Some(Switch::InPlace) => match options.target {
                Target::File(_) => return Ok(Err(misused("-o and -w do not go together", b""))),
                _ => options.target = Target::InPlace,
            },
            Some(Switch::Output) => match options.target {
                Target::Standard => names_output = true,
                Target::File(_) => return Ok(Err(misused("-o is there twice", b""))),
                Target::InPlace => return Ok(Err(misused("-o and -w do not go together", b""))),
            },
            None => return Ok(Err(misused("there is no option ", word))),
        }
    }
    if names_output {
        return Ok(Err(misused("no file behind -o", b"")));
    }
    let asked = Asked {
        tool,
        options,
        files,
    };
    match unsuited(&asked) {
        Some(reason) if !options.help => Ok(Err(misused(reason, b""))),
        _ => Ok(Ok(asked)),
    }
}
