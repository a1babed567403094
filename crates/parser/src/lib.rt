// From the tokens of a text to the records of its tree: expressions, from `parse_braced_expression` to `parse_expression_choice`.
// The functions call each other in a cycle: with each call the rest of the text is shorter, or it is the same and the function comes
// later in the grammar. `left` is how many levels may still be entered, and no length of `source`.
// Text, token and store are three parameters. The token differs at each call: a struct of the three would be made anew for each, and `Ready`
// proved there as it is now; changed in place, each contract would say besides that the text is the same. `left` differs from call to call
// in the same way. `Ready`, `ReadyArms`, `Behind`, `Onward`, `InlineName`, `IsMark`, `name_of` and `at_of` tie two or three parameters, so they
// are clauses: no type of one of them can hold them. So is `IsToken`, of the token alone: `tokens::next` and `tokens::start` take the end too,
// and a type without the end would be turned back to a token at each call.
#![tactic(auto)]

pub mod store; // records and texts in what is lent
pub mod props; // lists and props
pub mod parts; // parts of rules and expressions

ghost use Rattle.std.specs.Prelude.{◌≡◌, [], ◌+◌, ◌<◌, Some};
ghost use Rattle.tree.specs.Promise.{specialize_of};
ghost use Rattle.tree.specs.Stored.{expression_branch};
ghost use Rattle.notation.specs.Parser.{loop};
ghost use Rattle.notation.specs.Expressions.{parse_item, parse_arm, parse_expression_inner, parse_expression_suffix, parse_expression_sequence, choice_at, parse_braced_expression, parse_inline_rule_expression, parse_specialize_expression, parse_parenthesized_expression, parse_arguments};
ghost use Rattle.tokens.specs.Promise.{stream, start_in, name_of, at_of};
ghost use Rattle.parser.specs.Storing.{lent_of, Kept, nodes_of};
ghost use Rattle.parser.specs.Steps.{Onward, Ready, ParsesList};
ghost use Rattle.parser.specs.Shapes.{IsToken, IsMark, Behind, inline_text, InlineName, specialize_parts, ParsesParts, named, name_arguments, arguments_list, ReadyArms, Expresses, ExpressesBraced, ExpressesArms, ExpressesItem, ExpressesItems};

use crate::parts::{Arms, Expressed, Item, Items, Shape};
use crate::props::{Comma, Opened};
use crate::store::Store;
use error::{Cause, Stop};
use lexer::{Kind, Part, Token};
use tree::{NodeKind, SpecializeKind};

// How many levels an expression in braces may have.
pub const LEVELS: usize = 64;

// `parse_braced_expression`
#[cycle(expressions)]
pub fn braced(
    source: &[u8],
    left: usize,
    token: Token,
    store: &mut Store,
) -> Result<Expressed, Stop>
    requires { Ready source.now token (lent_of store.old) }
    ensures kept { Kept store.old store.new }
    ensures parses { ExpressesBraced (parse_braced_expression (choice_at left) (stream source.now token)) source.now token
        (lent_of store.old) (lent_of store.new) result }
{
    let opened = tokens::expect_punctuation(source, token, '{' as u32)?;
    let inside = parse_expression_choice(source, left, opened, store)?;
    let closed = tokens::expect_punctuation(source, inside.token, '}' as u32)?;
    Ok(Expressed {
        token: closed,
        ..inside
    })
}

#[cycle(expressions)]
pub fn parse_expression_inner(
    source: &[u8],
    left: usize,
    token: Token,
    store: &mut Store,
) -> Result<Expressed, Stop>
    requires { Ready source.now token (lent_of store.old) }
    ensures kept { Kept store.old store.new }
    ensures parses { Expresses (parse_expression_inner (choice_at left) (stream source.now token)) source.now token 1 0
        (lent_of store.old) (lent_of store.new) result }
{
    match token {
        Token::Eof(_) => Err(tokens::unexpected(token)),
        Token::Of(Kind::String(_, body), _, _) => {
            parts::parse_literal_expression(source, token, body, store)
        }
        Token::Of(Kind::Set(inverted, body), _, _) => {
            parts::parse_set_expression(source, token, inverted, body, store)
        }
        Token::Of(Kind::At(name), _, _) => word(source, left, token, name, store),
        Token::Of(Kind::Identifier(text), _, _) => name(source, left, token, text, store),
        Token::Of(Kind::Punctuation(c), _, _) => mark(source, left, token, c, store),
    }
}

// At a mark: brackets, or an inline rule without a name.
#[cycle(expressions)]
fn mark(
    source: &[u8],
    left: usize,
    token: Token,
    c: u32,
    store: &mut Store,
) -> Result<Expressed, Stop>
    requires { Ready source.now token (lent_of store.old) × IsMark token c }
    ensures kept { Kept store.old store.new }
    ensures parses { Expresses (parse_expression_inner (choice_at left) (stream source.now token)) source.now token 1 0
        (lent_of store.old) (lent_of store.new) result }
{
    match c {
        0x28 => {
            let opened = tokens::next(source, token)?;
            parens(source, left, token, opened, store)
        }
        0x5B => inline(source, left, token, None, token, store),
        _ => Err(tokens::unexpected(token)),
    }
}

// At `@` and a word.
#[cycle(expressions)]
fn word(
    source: &[u8],
    left: usize,
    token: Token,
    text: Part,
    store: &mut Store,
) -> Result<Expressed, Stop>
    requires { Ready source.now token (lent_of store.old) × (at_of token ≡ Some text) }
    ensures kept { Kept store.old store.new }
    ensures parses { Expresses (parse_expression_inner (choice_at left) (stream source.now token)) source.now token 1 0
        (lent_of store.old) (lent_of store.new) result }
{
    if lexer::words::spells(text.of(source), b"specialize") {
        return specialize(source, left, token, SpecializeKind::Specialize, store);
    }
    if lexer::words::spells(text.of(source), b"extend") {
        return specialize(source, left, token, SpecializeKind::Extend, store);
    }
    parts::parse_class(source, token, tokens::start(token), text, store)
}

// At a name.
#[cycle(expressions)]
fn name(
    source: &[u8],
    left: usize,
    token: Token,
    text: Part,
    store: &mut Store,
) -> Result<Expressed, Stop>
    requires { Ready source.now token (lent_of store.old) × (name_of token ≡ Some text) }
    ensures kept { Kept store.old store.new }
    ensures parses { Expresses (parse_expression_inner (choice_at left) (stream source.now token)) source.now token 1 0
        (lent_of store.old) (lent_of store.new) result }
{
    if lexer::words::spells(text.of(source), b"_") {
        return parts::parse_any(source, token, store);
    }
    let after = tokens::next(source, token)?;
    named(source, left, token, text, after, store)
}

// After a name: an inline rule, a class of `std`, or a name with its arguments.
#[cycle(expressions)]
fn named(
    source: &[u8],
    left: usize,
    name: Token,
    text: Part,
    token: Token,
    store: &mut Store,
) -> Result<Expressed, Stop>
    requires { Ready source.now name (lent_of store.old) × Behind source.now name token × (name_of name ≡ Some text) }
    ensures kept { Kept store.old store.new }
    ensures parses { Expresses (named (choice_at left) source.now (start_in name) text (stream source.now token)) source.now name 1 0
        (lent_of store.old) (lent_of store.new) result }
{
    match tokens::mark(token) {
        0x5B | 0x7B => inline(source, left, name, Some(text), token, store),
        _ => {
            if parts::is_std(source, text, token) {
                return parts::std_class(source, token, name, store);
            }
            apply(source, left, name, text, token, store)
        }
    }
}

// A name with its arguments.
#[cycle(expressions)]
fn apply(
    source: &[u8],
    left: usize,
    name: Token,
    text: Part,
    token: Token,
    store: &mut Store,
) -> Result<Expressed, Stop>
    requires { Ready source.now name (lent_of store.old) × Behind source.now name token × (name_of name ≡ Some text) }
    ensures kept { Kept store.old store.new }
    ensures parses { Expresses (name_arguments (choice_at left) source.now (start_in name) text (stream source.now token)) source.now name 1 0
        (lent_of store.old) (lent_of store.new) result }
{
    let (after, count) = args(source, left, token, store)?;
    let start = tokens::start(name);
    store.put_named(NodeKind::Name, start, text.of(source), 0, count);
    Ok(Expressed {
        token: after,
        start,
        shape: Shape::Name,
    })
}

// `parse_parenthesized_expression`: after `(`, which is the token `first`.
#[cycle(expressions)]
fn parens(
    source: &[u8],
    left: usize,
    first: Token,
    token: Token,
    store: &mut Store,
) -> Result<Expressed, Stop>
    requires { Ready source.now first (lent_of store.old) × Onward source.now first token 1 }
    ensures kept { Kept store.old store.new }
    ensures parses { Expresses (parse_parenthesized_expression (choice_at left) (start_in first) (stream source.now token)) source.now first 1 0
        (lent_of store.old) (lent_of store.new) result }
{
    if let Some(empty) = tokens::eat_punctuation(source, token, ')' as u32)? {
        let start = tokens::start(first);
        store.put_plain(NodeKind::Sequence, start, 1, 0);
        return Ok(Expressed {
            token: empty,
            start,
            shape: Shape::Other,
        });
    }
    let inside = parse_expression_choice(source, left, token, store)?;
    let closed = tokens::expect_punctuation(source, inside.token, ')' as u32)?;
    Ok(Expressed {
        token: closed,
        ..inside
    })
}

// The two parts of a specialize that starts at `start`, and `>`.
#[cycle(expressions)]
fn pair(
    source: &[u8],
    left: usize,
    start: usize,
    token: Token,
    store: &mut Store,
) -> Result<Token, Stop>
    requires { Ready source.now token (lent_of store.old) }
    ensures kept { Kept store.old store.new }
    ensures parses { ParsesParts (specialize_parts (choice_at left) start (stream source.now token)) source.now token
        (lent_of store.old) (lent_of store.new) result }
{
    let first = parse_expression_choice(source, left, token, store)?;
    let Some(comma) = tokens::eat_punctuation(source, first.token, ',' as u32)? else {
        parts::parse_specialize_content(source, start, first.start, first.shape, store)?;
        return tokens::expect_punctuation(source, first.token, '>' as u32);
    };
    let second = parse_expression_choice(source, left, comma, store)?;
    tokens::expect_punctuation(source, second.token, '>' as u32)
}

// `parse_specialize_expression`: at `@specialize` or `@extend`.
#[cycle(expressions)]
fn specialize(
    source: &[u8],
    left: usize,
    token: Token,
    kind: SpecializeKind,
    store: &mut Store,
) -> Result<Expressed, Stop>
    requires { Ready source.now token (lent_of store.old) × IsToken token }
    ensures kept { Kept store.old store.new }
    ensures parses { Expresses (parse_specialize_expression (choice_at left) (start_in token) (specialize_of kind) (stream source.now token)) source.now token 1 0
        (lent_of store.old) (lent_of store.new) result }
{
    let start = tokens::start(token);
    let (head, count) = parts::specialize_head(source, token, store)?;
    let closed = pair(source, left, start, head, store)?;
    store.put_plain(NodeKind::Specialize, start, kind.value(), count + 2);
    Ok(Expressed {
        token: closed,
        start,
        shape: Shape::Other,
    })
}

// `parse_inline_rule_expression`: from its props or its brace on. Its first token is its name, or its bracket where it has none.
#[cycle(expressions)]
fn inline(
    source: &[u8],
    left: usize,
    first: Token,
    name: Option<Part>,
    token: Token,
    store: &mut Store,
) -> Result<Expressed, Stop>
    requires { Ready source.now first (lent_of store.old) × InlineName source.now first name token }
    ensures kept { Kept store.old store.new }
    ensures parses { Expresses (parse_inline_rule_expression (choice_at left) (start_in first) (inline_text source.now name) (stream source.now token)) source.now first 1 0
        (lent_of store.old) (lent_of store.new) result }
{
    let start = tokens::start(first);
    let head = parts::rule_head(source, token, store)?;
    let body = braced(source, left, head.token, store)?;
    if head.params != 0 {
        return Err(Stop {
            cause: Cause::InlineParameters,
            place: start,
        });
    }
    parts::put_inline(source, name, start, head.props + 1, store);
    Ok(Expressed {
        token: body.token,
        start,
        shape: Shape::Other,
    })
}

// Arguments after `<`. It loops itself: an item of `props::until` takes a token, and an argument may be empty. A closure in a cycle of calls
// must also state its contract, so the call would be longer than the loop.
#[cycle(expressions)]
fn list(source: &[u8], left: usize, token: Token, store: &mut Store) -> Result<(Token, usize), Stop>
    requires { Ready source.now token (lent_of store.old) }
    ensures kept { Kept store.old store.new }
    ensures parses { ParsesList (arguments_list (choice_at left) (stream source.now token)) (nodes_of expression_branch) source.now token 1
        (lent_of store.old) (lent_of store.new) result }
{
    let mut t = token;
    let mut count = 0;
    loop {
        match props::opening(source, t, '>' as u32, Comma::Must, count)? {
            Opened::Closed(after) => return Ok((after, count)),
            Opened::Item(item) => {
                let argument = parse_expression_choice(source, left, item, store)?;
                t = argument.token;
                count += 1;
            }
        }
    }
}

// `parse_arguments`: those of a name, none where no `<` follows. `props::optional` would be no shorter: it would need a closure over `left`,
// and in a cycle of calls a closure must state its contract.
#[cycle(expressions)]
fn args(source: &[u8], left: usize, token: Token, store: &mut Store) -> Result<(Token, usize), Stop>
    requires { Ready source.now token (lent_of store.old) }
    ensures kept { Kept store.old store.new }
    ensures parses { ParsesList (parse_arguments (choice_at left) (stream source.now token)) (nodes_of expression_branch) source.now token 0
        (lent_of store.old) (lent_of store.new) result }
{
    match tokens::eat_punctuation(source, token, '<' as u32)? {
        Some(after) => list(source, left, after, store),
        None => Ok((token, 0)),
    }
}

#[cycle(expressions)]
fn parse_expression_suffix(
    source: &[u8],
    left: usize,
    token: Token,
    store: &mut Store,
) -> Result<Expressed, Stop>
    requires { Ready source.now token (lent_of store.old) }
    ensures kept { Kept store.old store.new }
    ensures parses { Expresses (parse_expression_suffix (choice_at left) (stream source.now token)) source.now token 1 0
        (lent_of store.old) (lent_of store.new) result }
{
    let start = tokens::start(token);
    let inner = parse_expression_inner(source, left, token, store)?;
    let stack = inner.shape.stack();
    let (after, count) = parts::parse_repeats(source, inner.token, start, stack, store)?;
    if count == 0 {
        return Ok(Expressed {
            token: after,
            ..inner
        });
    }
    Ok(Expressed {
        token: after,
        start,
        shape: Shape::Repeat(stack + count),
    })
}

// A marker or an expression, or none at the sequence's end.
#[cycle(expressions)]
fn item(source: &[u8], left: usize, token: Token, store: &mut Store) -> Result<Option<Item>, Stop>
    requires { Ready source.now token (lent_of store.old) }
    ensures kept { Kept store.old store.new }
    ensures parses { ExpressesItem (parse_item (choice_at left) [] (stream source.now token)) source.now token
        (lent_of store.old) (lent_of store.new) result }
{
    if let Some(kind) = parts::marker_kind(tokens::mark(token)) {
        return parts::parse_marker(source, token, kind, store);
    }
    if parts::ends_sequence(token) {
        return Ok(None);
    }
    let suffixed = parse_expression_suffix(source, left, token, store)?;
    Ok(Some(Item::Expression(suffixed)))
}

// Markers and expressions up to the sequence's end.
#[cycle(expressions)]
fn items(source: &[u8], left: usize, token: Token, store: &mut Store) -> Result<Items, Stop>
    requires { Ready source.now token (lent_of store.old) }
    ensures kept { Kept store.old store.new }
    ensures parses { ExpressesItems (loop (parse_item (choice_at left)) (stream source.now token)) source.now token
        (lent_of store.old) (lent_of store.new) result }
{
    let mut t = token;
    let mut markers = 0;
    let mut expressions = 0;
    let mut start = 0;
    let mut shape = Shape::Other;
    while let Some(read) = item(source, left, t, store)? {
        match read {
            Item::Marker(after) => {
                t = after;
                markers += 1;
            }
            Item::Expression(expressed) => {
                t = expressed.token;
                start = expressed.start;
                shape = expressed.shape;
                expressions += 1;
            }
        }
    }
    Ok(Items {
        token: t,
        markers,
        expressions,
        start,
        shape,
    })
}

#[cycle(expressions)]
fn parse_expression_sequence(
    source: &[u8],
    left: usize,
    token: Token,
    store: &mut Store,
) -> Result<Expressed, Stop>
    requires { Ready source.now token (lent_of store.old) }
    ensures kept { Kept store.old store.new }
    ensures parses { Expresses (parse_expression_sequence (choice_at left) (stream source.now token)) source.now token 0 1
        (lent_of store.old) (lent_of store.new) result }
{
    let read = items(source, left, token, store)?;
    if read.markers == 0 && read.expressions == 1 {
        return Ok(Expressed {
            token: read.token,
            start: read.start,
            shape: read.shape,
        });
    }
    let start = tokens::start(token);
    store.put_plain(
        NodeKind::Sequence,
        start,
        0,
        read.markers + read.expressions,
    );
    Ok(Expressed {
        token: read.token,
        start,
        shape: parts::sequence_shape(read.expressions),
    })
}

// The arms behind the first.
#[cycle(expressions)]
fn arms(source: &[u8], left: usize, token: Token, store: &mut Store) -> Result<Arms, Stop>
    requires { ReadyArms source.now token (lent_of store.old) }
    ensures kept { Kept store.old store.new }
    ensures parses { ExpressesArms (loop (parse_arm (choice_at left)) (stream source.now token)) source.now token
        (lent_of store.old) (lent_of store.new) result }
{
    let mut t = token;
    let mut count = 0;
    let mut empty = None;
    while let Some(bar) = tokens::eat_punctuation(source, t, '|' as u32)? {
        let arm = parse_expression_sequence(source, left, bar, store)?;
        t = arm.token;
        count += 1;
        empty = parts::first_empty(empty, arm.start, arm.shape);
    }
    Ok(Arms {
        token: t,
        count,
        empty,
    })
}

// A level is one entry here.
#[cycle(expressions)]
pub fn parse_expression_choice(
    source: &[u8],
    left: usize,
    token: Token,
    store: &mut Store,
) -> Result<Expressed, Stop>
    requires { Ready source.now token (lent_of store.old) }
    ensures kept { Kept store.old store.new }
    ensures parses { Expresses (choice_at left (stream source.now token)) source.now token 0 2
        (lent_of store.old) (lent_of store.new) result }
{
    let start = tokens::start(token);
    if left == 0 {
        return Err(Stop {
            cause: Cause::TooDeep,
            place: start,
        });
    }
    let first = parse_expression_sequence(source, left - 1, token, store)?;
    let others = arms(source, left - 1, first.token, store)?;
    if others.count == 0 {
        return Ok(Expressed {
            token: others.token,
            ..first
        });
    }
    if let Some(place) = parts::first_of(first.start, first.shape, others.empty) {
        return Err(Stop {
            cause: Cause::EmptyArm,
            place,
        });
    }
    store.put_plain(NodeKind::Choice, start, 0, others.count + 1);
    Ok(Expressed {
        token: others.token,
        start,
        shape: Shape::Other,
    })
}
