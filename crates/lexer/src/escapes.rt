// Escapes, in strings and in sets alike.
//
// Functions take the whole body and a place in it, not the rest from that place on: the `end` of an answer is a place in the body, from which
// callers go on.
ghost use Rattle.std.specs.Prelude.{◌≡◌, ℕ, ◌+◌, ◌≤◌, ◌<◌, length};
ghost use Rattle.characters.specs.Utf8.{codes, encode_all};
ghost use Rattle.characters.specs.Places.{chars_at};
ghost use Rattle.characters.specs.Promise.{written_all};
ghost use Rattle.lexer.specs.Escapes.{hex_digit, control, escape, decode_string};
ghost use Rattle.lexer.specs.Promise.{digit_of, braced_at, until_at, fixed_at, Takes, ReadsAtom};

// A character by its number, and the place after it: a code and a place, where the fields of `Part` are two places and those of `Span` two
// codes.
#[derive(Clone, Copy, Debug, PartialEq, Eq)]
pub struct Taken {
    pub code: u32,
    pub end: usize,
}

// A character of a body: its code, whether it was escaped, and the place after it. The structs of three fields in the crates above hold
// records and tokens: none has these fields.
#[derive(Clone, Copy, Debug, PartialEq, Eq)]
pub struct Atom {
    pub code: u32,
    pub escaped: bool,
    pub end: usize,
}

// Writes the value of a string's text into the part that is lent for it, each character where it fits, and counts its bytes in any
// case. The loop is no `for`: how far a step goes is known only when the atom is read.
pub fn decode_string(body: &[u8], out: &mut [u8]) -> usize
    ensures { (result ≡ length (encode_all (decode_string (codes body.now)))) × (out.new ≡ written_all out.old 0 (decode_string (codes body.now))) × (result ≤ length body.now) }
{
    let mut cursor = 0;
    let mut n = 0;
    while let Some(c) = set_atom(body, cursor) {
        n += characters::put(out, n, c.code);
        cursor = c.end;
    }
    n
}

// The first atom of a body from a place on: `set_atoms` one by one, and the characters of a string too.
pub fn set_atom(body: &[u8], at: usize) -> Option<Atom>
    ensures { ReadsAtom body.now at result }
{
    let (c, n) = characters::decode(body, at)?;
    let next = at + n;
    if c != 0x5C {
        return Some(Atom {
            code: c,
            escaped: false,
            end: next,
        });
    }
    let (e, m) = characters::decode(body, next)?;
    let Taken { code, end } = decode_escape(body, next + m, e);
    Some(Atom {
        code,
        escaped: true,
        end,
    })
}

// The escape whose letter e stands before a place: a number in braces or of four digits, a number of two digits, or else the letter or
// what it stands for.
fn decode_escape(body: &[u8], at: usize, e: u32) -> Taken
    ensures { Takes body.now at (escape e (chars_at body.now at)) result }
{
    let letter = Taken { code: e, end: at };
    match e {
        0x75 | 0x55 => match decode_braced(body, at) {
            Some(taken) => taken,
            None => decode_fixed_hex(body, at, 4).unwrap_or(letter),
        },
        0x78 | 0x58 => decode_fixed_hex(body, at, 2).unwrap_or(letter),
        _ => Taken {
            code: control_code(e),
            end: at,
        },
    }
}

#[tactic(auto, using(std::proofs::lemmas::Bool::Decides::nat_tests), unfolding(crate::specs::Escapes::control))]
fn control_code(e: u32) -> u32
    ensures { result ≡ control e }
{
    match e {
        0x6E => 0x0A,
        0x74 => 0x09,
        0x62 => 0x08,
        0x72 => 0x0D,
        0x66 => 0x0C,
        0x30 => 0x00,
        _ => e,
    }
}

// Exactly k digits.
fn decode_fixed_hex(body: &[u8], from: usize, k: usize) -> Option<Taken>
    requires { k ≤ 4 }
    ensures { result ≡ fixed_at k 0 body.now from }
{
    let mut v: u32 = 0;
    for i in 0..k {
        let c = characters::peek(body, from + i)?;
        let d = hex_digit(c)?;
        v = v * 16 + d;
    }
    characters::is_scalar(v).then_some(Taken {
        code: v,
        end: from + k,
    })
}

// A number in braces, with one digit at least.
fn decode_braced(body: &[u8], from: usize) -> Option<Taken>
    ensures { result ≡ braced_at body.now from }
{
    if characters::peek(body, from) != Some(0x7B)
        || characters::peek(body, from + 1) == Some(0x7D)
    {
        return None;
    }
    decode_hex_scalar(body, from + 1)
}

// Digits up to a brace. A value past all codes stays so, and need not be counted on.
fn decode_hex_scalar(body: &[u8], from: usize) -> Option<Taken>
    ensures { result ≡ until_at 0 body.now from }
{
    let mut v: u32 = 0;
    for at in from..body.len() {
        let c = characters::peek(body, at)?;
        if c == 0x7D {
            return characters::is_scalar(v).then_some(Taken {
                code: v,
                end: at + 1,
            });
        }
        let d = hex_digit(c)?;
        v = v * 16 + d;
        if 0x110000 <= v {
            return None;
        }
    }
    None
}

#[tactic(auto, using(std::proofs::lemmas::Bool::Decides::nat_tests), unfolding(crate::specs::Escapes::hex_digit))]
fn hex_digit(c: u32) -> Option<u32>
    ensures { result ≡ digit_of (hex_digit c) }
{
    char::from_u32(c)?.to_digit(16)
}
