// Lists and props: `parse_props`, `parse_prop`.
// Text, token and store are three parameters, for the reason in lib.rt: the token differs at each call. `Ready` ties the three, and `LiesIn`,
// `PartValue`, `PropName` and `string_of` tie two or three, so they are clauses: no type of one parameter can hold them.
// So is `mark_of token ≡ 0x7B`, of the token alone: `tokens::next` takes every token, so a type of some tokens only would be turned back to a
// token at each call.
ghost use Rattle.std.specs.Prelude.{◌≡◌, [], ◌<◌, length, Some};
ghost use Rattle.tree.specs.Stored.{part_branch, prop_branch};
ghost use Rattle.notation.specs.Expressions.{parse_part, parse_prop, parse_props};
ghost use Rattle.notation.specs.Parser.{loop, eat, until};
ghost use Rattle.tokens.specs.Promise.{stream, mark_of, string_of, LiesIn};
ghost use Rattle.parser.specs.Storing.{lent_of, Kept, nodes_of};
ghost use Rattle.parser.specs.Steps.{Ready, Parses, ParsesTurn, ParsesList, between_by, comma_step, step_by, separator as separator_d, Separates, Opens, PartValue, parse_value, PropName, props_list};
ghost use Rattle.parser.specs.Lists.{Listed, Marked, MayRead, ReadsItems, ReadsBehind, as_read, optional};

use crate::store::Store;
use error::Stop;
use lexer::{Kind, Part, Token};
use tree::NodeKind;

// Whether a list goes on with an item, or is closed: the token there, or behind it.
#[derive(Clone, Copy, Debug, PartialEq, Eq)]
pub enum Opened {
    Item(Token),
    Closed(Token),
}

// What stands between the items of a list: a comma that must be there, one that may, nothing. Three ways, so no `Option`.
#[derive(Clone, Copy, Debug, PartialEq, Eq)]
pub enum Comma {
    Must,
    May,
    No,
}

// What stands between two items.
pub fn between(source: &[u8], token: Token, comma: Comma) -> Result<Token, Stop>
    requires { LiesIn source.now 0 token }
    ensures { Separates source.now token (between_by comma) (comma_step comma) result }
{
    match comma {
        Comma::Must => tokens::expect_punctuation(source, token, ',' as u32),
        Comma::May => {
            let after = tokens::eat_punctuation(source, token, ',' as u32)?;
            Ok(after.unwrap_or(token))
        }
        Comma::No => Ok(token),
    }
}

// What stands before the next of so many items.
fn separator(source: &[u8], token: Token, comma: Comma, count: usize) -> Result<Token, Stop>
    requires { LiesIn source.now 0 token }
    ensures { Separates source.now token (separator_d comma count) (step_by comma count) result }
{
    if count == 0 {
        return Ok(token);
    }
    between(source, token, comma)
}

// The front of a list's turn.
pub fn opening(
    source: &[u8],
    token: Token,
    close: u32,
    comma: Comma,
    count: usize,
) -> Result<Opened, Stop>
    requires { LiesIn source.now 0 token × (0 < close) }
    ensures { Opens source.now token close comma count result }
{
    if let Some(after) = tokens::eat_punctuation(source, token, close)? {
        return Ok(Opened::Closed(after));
    }
    let item = separator(source, token, comma, count)?;
    Ok(Opened::Item(item))
}

// Items up to the mark that closes their list, each read by a function that is passed: the token behind the mark, and how many they are.
pub fn until<F: Fn(&[u8], Token, &mut Store) -> Result<Token, Stop>>(
    source: &[u8],
    token: Token,
    close: u32,
    comma: Comma,
    item: F,
    store: &mut Store,
) -> Result<(Token, usize), Stop>
    requires ready { Ready source.now token (lent_of store.old) }
    requires calls { MayRead source.now (F.pre item) }
    requires reads { (l : Listed) × ReadsItems source.now close (F.post item) l }
    ensures kept { Kept store.old store.new }
    ensures parses { (l : Listed) → ReadsItems source.now close (F.post item) l → ParsesList (until (eat l.mark) (between_by comma) (λ _. l.item) (stream source.now token)) as_read source.now token 1
        (lent_of store.old) (lent_of store.new) result }
{
    let mut t = token;
    let mut count = 0;
    loop {
        match opening(source, t, close, comma, count)? {
            Opened::Closed(after) => return Ok((after, count)),
            Opened::Item(next) => {
                t = item(source, next, store)?;
                count += 1;
            }
        }
    }
}

// What a function that is passed reads behind a mark, or nothing where the mark does not follow. `args` of lib.rt says why it matches itself.
pub fn optional<F: Fn(&[u8], Token, &mut Store) -> Result<(Token, usize), Stop>>(
    source: &[u8],
    token: Token,
    mark: u32,
    inside: F,
    store: &mut Store,
) -> Result<(Token, usize), Stop>
    requires ready { Ready source.now token (lent_of store.old) }
    requires calls { MayRead source.now (F.pre inside) }
    requires reads { (l : Marked) × ReadsBehind source.now mark (F.post inside) l }
    ensures kept { Kept store.old store.new }
    ensures parses { (l : Marked) → ReadsBehind source.now mark (F.post inside) l → ParsesList (optional l.mark l.inside (stream source.now token)) as_read source.now token 0
        (lent_of store.old) (lent_of store.new) result }
{
    match tokens::eat_punctuation(source, token, mark)? {
        Some(after) => inside(source, after, store),
        None => Ok((token, 0)),
    }
}

// A part with these bytes for its text: the token is taken. Inlined: as a call it takes a quarter of the instructions of a part.
#[inline(always)]
fn part_value(
    source: &[u8],
    token: Token,
    text: &[u8],
    store: &mut Store,
) -> Result<Option<Token>, Stop>
    requires { Ready source.now token (lent_of store.old) × PartValue source.now token text.now }
    ensures kept { Kept store.old store.new }
    ensures parses { ParsesTurn (parse_part [] (stream source.now token)) (nodes_of part_branch) source.now token
        (lent_of store.old) (lent_of store.new) result }
{
    let after = tokens::next(source, token)?;
    store.put_named(NodeKind::PartText, tokens::start(token), text, 0, 0);
    Ok(Some(after))
}

// A part that is a string.
fn part_string(
    source: &[u8],
    token: Token,
    body: Part,
    store: &mut Store,
) -> Result<Option<Token>, Stop>
    requires { Ready source.now token (lent_of store.old) × (string_of token ≡ Some body) }
    ensures kept { Kept store.old store.new }
    ensures parses { ParsesTurn (parse_part [] (stream source.now token)) (nodes_of part_branch) source.now token
        (lent_of store.old) (lent_of store.new) result }
{
    let after = tokens::next(source, token)?;
    store.put_string(NodeKind::PartText, tokens::start(token), body.of(source), 0);
    Ok(Some(after))
}

// A part `{name}`, at its brace.
fn part_braced(source: &[u8], token: Token, store: &mut Store) -> Result<Option<Token>, Stop>
    requires { Ready source.now token (lent_of store.old) × (mark_of token ≡ 0x7B) }
    ensures kept { Kept store.old store.new }
    ensures parses { ParsesTurn (parse_part [] (stream source.now token)) (nodes_of part_branch) source.now token
        (lent_of store.old) (lent_of store.new) result }
{
    let opened = tokens::next(source, token)?;
    let (name, named) = tokens::parse_identifier(source, opened)?;
    let closed = tokens::expect_punctuation(source, named, '}' as u32)?;
    store.put_named(
        NodeKind::PartName,
        tokens::start(token),
        name.of(source),
        0,
        0,
    );
    Ok(Some(closed))
}

// A part of a prop's value, or none.
fn parse_part(source: &[u8], token: Token, store: &mut Store) -> Result<Option<Token>, Stop>
    requires { Ready source.now token (lent_of store.old) }
    ensures kept { Kept store.old store.new }
    ensures parses { ParsesTurn (parse_part [] (stream source.now token)) (nodes_of part_branch) source.now token
        (lent_of store.old) (lent_of store.new) result }
{
    match token {
        Token::Eof(_) => Ok(None),
        Token::Of(kind, _, _) => match kind {
            Kind::String(_, body) => part_string(source, token, body, store),
            Kind::Identifier(name) => part_value(source, token, name.of(source), store),
            Kind::At(_) => Ok(None),
            Kind::Set(_, _) => Ok(None),
            Kind::Punctuation(c) => match c {
                0x2E => part_value(source, token, b".", store),
                0x7B => part_braced(source, token, store),
                _ => Ok(None),
            },
        },
    }
}

// The parts of a prop's value.
fn parse_parts(source: &[u8], token: Token, store: &mut Store) -> Result<(Token, usize), Stop>
    requires { Ready source.now token (lent_of store.old) }
    ensures kept { Kept store.old store.new }
    ensures parses { ParsesList (loop parse_part (stream source.now token)) (nodes_of part_branch) source.now token 0
        (lent_of store.old) (lent_of store.new) result }
{
    let mut t = token;
    let mut count = 0;
    while let Some(after) = parse_part(source, t, store)? {
        t = after;
        count += 1;
    }
    Ok((t, count))
}

// The value of a prop, after its name.
fn parse_value(source: &[u8], token: Token, store: &mut Store) -> Result<(Token, usize), Stop>
    requires { Ready source.now token (lent_of store.old) }
    ensures kept { Kept store.old store.new }
    ensures parses { ParsesList (parse_value (stream source.now token)) (nodes_of part_branch) source.now token 0
        (lent_of store.old) (lent_of store.new) result }
{
    optional(source, token, '=' as u32, parse_parts, store)
}

// A prop whose name is a part of the current token.
fn prop_named(
    source: &[u8],
    token: Token,
    at: bool,
    name: Part,
    store: &mut Store,
) -> Result<Token, Stop>
    requires { Ready source.now token (lent_of store.old) × PropName source.now token at name }
    ensures kept { Kept store.old store.new }
    ensures parses { Parses (parse_prop (stream source.now token)) (nodes_of prop_branch) source.now token
        (lent_of store.old) (lent_of store.new) result }
{
    let named = tokens::next(source, token)?;
    let (after, count) = parse_value(source, named, store)?;
    store.put_named(
        NodeKind::Prop,
        tokens::start(token),
        name.of(source),
        at as u32,
        count,
    );
    Ok(after)
}

fn parse_prop(source: &[u8], token: Token, store: &mut Store) -> Result<Token, Stop>
    requires { Ready source.now token (lent_of store.old) }
    ensures kept { Kept store.old store.new }
    ensures parses { Parses (parse_prop (stream source.now token)) (nodes_of prop_branch) source.now token
        (lent_of store.old) (lent_of store.new) result }
{
    if let Some(name) = tokens::at(token) {
        return prop_named(source, token, true, name, store);
    }
    let Some(name) = tokens::name(token) else {
        return Err(tokens::unexpected(token));
    };
    prop_named(source, token, false, name, store)
}

// Props up to their bracket.
fn props_list(source: &[u8], token: Token, store: &mut Store) -> Result<(Token, usize), Stop>
    requires { Ready source.now token (lent_of store.old) }
    ensures kept { Kept store.old store.new }
    ensures parses { ParsesList (props_list (stream source.now token)) (nodes_of prop_branch) source.now token 1
        (lent_of store.old) (lent_of store.new) result }
{
    until(source, token, ']' as u32, Comma::Must, parse_prop, store)
}

// `[` props `]`, or nothing.
pub fn parse_props(source: &[u8], token: Token, store: &mut Store) -> Result<(Token, usize), Stop>
    requires { Ready source.now token (lent_of store.old) }
    ensures kept { Kept store.old store.new }
    ensures parses { ParsesList (parse_props (stream source.now token)) (nodes_of prop_branch) source.now token 0
        (lent_of store.old) (lent_of store.new) result }
{
    optional(source, token, '[' as u32, props_list, store)
}
