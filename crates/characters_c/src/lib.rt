// The functions of characters and error under plain names, for programs in Rust or C to link: compare/characters does. Parameters are those of
// the C interface: a text and a place in it are two of them.
#![tactic(auto)]

ghost use Rattle.std.specs.Prelude.{◌≡◌, length};
ghost use Rattle.characters.specs.Utf8.{check, is_scalar};
ghost use Rattle.characters.specs.Alphabetic.{is_alphabetic};
ghost use Rattle.characters.specs.Classes.{is_ascii_digit, is_ascii_hexdigit, is_whitespace, is_ecmascript_whitespace, is_line_terminator, is_punctuation, is_word};
ghost use Rattle.characters.specs.Promise.{run_end, written, scalar_bytes};
ghost use Rattle.error.specs.Lines.{line_at, column_at};
ghost use Rattle.characters_c.specs.Upto.{valid_upto};

// Where the first ill-formed sequence starts, or the length.
#[unsafe(no_mangle)]
pub extern "C" fn characters_check(text: &[u8]) -> usize
    ensures { result ≡ valid_upto (check text.now) (length text.now) }
{
    match characters::check(text) {
        Ok(()) => text.len(),
        Err(e) => e.at,
    }
}

#[unsafe(no_mangle)]
pub extern "C" fn characters_scan_word(text: &[u8], from: usize) -> usize
    ensures { result ≡ run_end is_word text.now from }
{
    characters::scan_word(text, from)
}

#[unsafe(no_mangle)]
pub extern "C" fn characters_put(out: &mut [u8], at: usize, code: u32) -> usize
    ensures { (result ≡ length (scalar_bytes code)) × (out.new ≡ written out.old at (scalar_bytes code)) }
{
    characters::put(out, at, code)
}

#[unsafe(no_mangle)]
pub extern "C" fn characters_is_scalar(code: u32) -> bool
    ensures { result ≡ is_scalar code }
{
    characters::is_scalar(code)
}

#[unsafe(no_mangle)]
pub extern "C" fn characters_is_alphabetic(code: u32) -> bool
    ensures { result ≡ is_alphabetic code }
{
    characters::is_alphabetic(code)
}

#[unsafe(no_mangle)]
pub extern "C" fn characters_is_whitespace(code: u32) -> bool
    ensures { result ≡ is_whitespace code }
{
    characters::is_whitespace(code)
}

#[unsafe(no_mangle)]
pub extern "C" fn characters_is_ascii_digit(code: u32) -> bool
    ensures { result ≡ is_ascii_digit code }
{
    characters::is_ascii_digit(code)
}

#[unsafe(no_mangle)]
pub extern "C" fn characters_is_ascii_hexdigit(code: u32) -> bool
    ensures { result ≡ is_ascii_hexdigit code }
{
    characters::is_ascii_hexdigit(code)
}

#[unsafe(no_mangle)]
pub extern "C" fn characters_is_punctuation(code: u32) -> bool
    ensures { result ≡ is_punctuation code }
{
    characters::is_punctuation(code)
}

#[unsafe(no_mangle)]
pub extern "C" fn characters_is_word(code: u32) -> bool
    ensures { result ≡ is_word code }
{
    characters::is_word(code)
}

#[unsafe(no_mangle)]
pub extern "C" fn characters_is_ecmascript_whitespace(code: u32) -> bool
    ensures { result ≡ is_ecmascript_whitespace code }
{
    characters::is_ecmascript_whitespace(code)
}

#[unsafe(no_mangle)]
pub extern "C" fn characters_is_line_terminator(code: u32) -> bool
    ensures { result ≡ is_line_terminator code }
{
    characters::is_line_terminator(code)
}

#[unsafe(no_mangle)]
pub extern "C" fn error_line(text: &[u8], place: usize) -> usize
    ensures { result ≡ line_at text.now place }
{
    error::line_info(text, place).line
}

#[unsafe(no_mangle)]
pub extern "C" fn error_column(text: &[u8], place: usize) -> usize
    ensures { result ≡ column_at text.now place }
{
    error::line_info(text, place).column
}
