// What stops a reading: the cause, its place, and the line and column of that place.
#![tactic(auto)]

ghost use Rattle.std.specs.Prelude.{◌≡◌};
ghost use Rattle.error.specs.Lines.{line_at, column_at, refusal_at};
ghost use Rattle.error.specs.Promise.{cause_number, refusal_of};

// Why, each with its number.
#[derive(Clone, Copy, Debug, PartialEq, Eq)]
pub enum Cause {
    TooLong = 1,
    NotUtf8 = 2,
    TooDeep = 3,
    UnexpectedCharacter = 4,
    UnterminatedString = 5,
    AtWithoutName = 6,
    UnterminatedSet = 7,
    UnexpectedToken = 8,
    TopWithoutName = 9,
    SecondTokens = 10,
    SecondPrecedence = 11,
    SecondContext = 12,
    SecondSkip = 13,
    NoTop = 14,
    InlineParameters = 15,
    OnePart = 16,
    EmptyArm = 17,
    BadPrecedence = 18,
    BadConflict = 19,
    ReversedSpan = 20,
    OverlappingSpan = 21,
    RecordsFull = 22,
    TextsFull = 23,
    OutputFull = 24,
    NotATree = 25,
}

impl Cause {
    // The number of a cause. `From<Cause>` for u32 would hold the same `as`, and `u32::from(cause)` would not say which number it is.
    pub fn number(self) -> u32
        ensures { result ≡ cause_number self }
    {
        self as u32
    }
}

// What stops a reading, and where. `Stop` and `LineInfo`, and the types of two fields in other crates, stay apart: their fields mean different
// things, and as one type, a place could be taken for a line.
#[derive(Clone, Copy, Debug, PartialEq, Eq)]
pub struct Stop {
    pub cause: Cause,
    pub place: usize,
}

// A stop, with the line and column of its place.
#[derive(Clone, Copy, Debug, PartialEq, Eq)]
pub struct Refusal {
    pub cause: Cause,
    pub place: usize,
    pub line: usize,
    pub column: usize,
}

// The line and column of a place.
#[derive(Clone, Copy, Debug, PartialEq, Eq)]
pub struct LineInfo {
    pub line: usize,
    pub column: usize,
}

// The line and column of a place: 1 and the line feeds before it, and the bytes since the last of them. A place past the end counts the
// whole text: text and place are two parameters, since no part of the text ends there.
pub fn line_info(text: &[u8], place: usize) -> LineInfo
    ensures { (result.line ≡ line_at text.now place) × (result.column ≡ column_at text.now place) }
{
    let before = &text[..place.min(text.len())];
    let mut line = 1;
    let mut start = 0;
    for (at, &byte) in before.iter().enumerate() {
        if byte == 0x0A {
            line += 1;
            start = at + 1;
        }
    }
    LineInfo {
        line,
        column: place - start,
    }
}

// The refusal by a stop in a text.
pub fn refuse(text: &[u8], stop: Stop) -> Refusal
    ensures { refusal_of result ≡ refusal_at text.now (cause_number stop.cause) stop.place }
{
    let Stop { cause, place } = stop;
    let LineInfo { line, column } = line_info(text, place);
    Refusal {
        cause,
        place,
        line,
        column,
    }
}
