// The current token, and how it is taken: the parser's steps along the tokens of a text.
//
// The source and a token, or a place, are two parameters: a token is a plain value with places in the source, which it does not hold, so that
// it is kept and handed on, and contracts speak of it alone. So too `Whole source part` is asked of three functions: a part cannot say it.
#![tactic(auto)]

ghost use Rattle.std.specs.Prelude.{◌≡◌};
ghost use Rattle.error.specs.declared.Cause.TheVariants.{UnexpectedToken};
ghost use Rattle.lexer.specs.Promise.{tokens_at};
ghost use Rattle.notation.specs.Parser.{arrive as arrive_d, next as next_d};
ghost use Rattle.tokens.specs.Promise.{stream, start_in, end_in, mark_of, arrival, Lies, Eats, Expects, name_of, at_of, Whole, Says, EatsIf, EatsName, EatsAt, string_of, Takes, Identifies, TakesString};

use error::{Cause, Stop};
use lexer::{Kind, Part, Token};

// The first token from a place on. One that the lexer refuses is never current: to advance onto it is refused.
pub fn arrive(source: &[u8], from: usize) -> Result<Token, Stop>
    ensures { (arrive_d (tokens_at source.now from) ≡ arrival source.now result) × Lies source.now from result }
{
    lexer::next(source, from)
}

// The token after the current one; at the end, the end.
pub fn next(source: &[u8], token: Token) -> Result<Token, Stop>
    ensures { (next_d (stream source.now token) ≡ arrival source.now result) × Lies source.now (end_in token) result }
{
    match token {
        Token::Of(_, _, end) => arrive(source, end),
        Token::Eof(_) => Ok(token),
    }
}

// Where a token starts, or the place of the end.
pub fn start(token: Token) -> usize
    ensures { result ≡ start_in token }
{
    match token {
        Token::Of(_, start, _) => start,
        Token::Eof(at) => at,
    }
}

// The refusal of a token that is not expected.
pub fn unexpected(token: Token) -> Stop
    ensures { (result.cause ≡ UnexpectedToken) × (result.place ≡ start_in token) }
{
    Stop {
        cause: Cause::UnexpectedToken,
        place: start(token),
    }
}

// The code of a mark; 0 for none, as its promise `mark_of` says; no mark has the code 0.
pub fn mark(token: Token) -> u32
    ensures { result ≡ mark_of token }
{
    match token {
        Token::Of(Kind::Punctuation(c), _, _) => c,
        _ => 0,
    }
}

// The current token is taken if a test says so.
fn eat_if(source: &[u8], token: Token, test: bool) -> Result<Option<Token>, Stop>
    ensures { EatsIf source.now token test result }
{
    if !test {
        return Ok(None);
    }
    let after = next(source, token)?;
    Ok(Some(after))
}

// The current token is taken if it is this mark.
pub fn eat_punctuation(source: &[u8], token: Token, c: u32) -> Result<Option<Token>, Stop>
    ensures { Eats source.now token c result }
{
    eat_if(source, token, mark(token) == c)
}

// It must be this mark.
pub fn expect_punctuation(source: &[u8], token: Token, c: u32) -> Result<Token, Stop>
    ensures { Expects source.now token c result }
{
    let Some(after) = eat_punctuation(source, token, c)? else {
        return Err(unexpected(token));
    };
    Ok(after)
}

// The name that a token is. `name`, `at` and `string` differ in the variant that they take, which no parameter names: one function of them
// would be handed a closure with this same `match`.
pub fn name(token: Token) -> Option<Part>
    ensures { result ≡ name_of token }
{
    match token {
        Token::Of(Kind::Identifier(part), _, _) => Some(part),
        _ => None,
    }
}

// What follows its `@`.
pub fn at(token: Token) -> Option<Part>
    ensures { result ≡ at_of token }
{
    match token {
        Token::Of(Kind::At(part), _, _) => Some(part),
        _ => None,
    }
}

// What stands between its quotes.
pub fn string(token: Token) -> Option<Part>
    ensures { result ≡ string_of token }
{
    match token {
        Token::Of(Kind::String(_, part), _, _) => Some(part),
        _ => None,
    }
}

// Whether there is a part, and it is this word. The bytes are compared in place.
pub fn says(source: &[u8], part: Option<Part>, word: &[u8]) -> bool
    requires { Whole source.now part }
    ensures { Says source.now part word.now result }
{
    match part {
        Some(part) => lexer::words::spells(part.of(source), word),
        None => false,
    }
}

// The current token is taken if it is this name.
pub fn eat_identifier_value(source: &[u8], token: Token, word: &[u8]) -> Result<Option<Token>, Stop>
    requires { Whole source.now (name_of token) }
    ensures { EatsName source.now token word.now result }
{
    eat_if(source, token, says(source, name(token), word))
}

// The current token is taken if it is `@` and this word.
#[inline(always)]
pub fn eat_at(source: &[u8], token: Token, word: &[u8]) -> Result<Option<Token>, Stop>
    requires { Whole source.now (at_of token) }
    ensures { EatsAt source.now token word.now result }
{
    eat_if(source, token, says(source, at(token), word))
}

// The current token, which must hold a part, is taken.
fn take(source: &[u8], token: Token, part: Option<Part>) -> Result<(Part, Token), Stop>
    ensures { Takes source.now token part result }
{
    let Some(part) = part else {
        return Err(unexpected(token));
    };
    let after = next(source, token)?;
    Ok((part, after))
}

// A name; its start is the token's.
pub fn parse_identifier(source: &[u8], token: Token) -> Result<(Part, Token), Stop>
    ensures { Identifies source.now token result }
{
    take(source, token, name(token))
}

// A string; its value is decoded where it is stored.
pub fn expect_string(source: &[u8], token: Token) -> Result<(Part, Token), Stop>
    ensures { TakesString source.now token result }
{
    take(source, token, string(token))
}
