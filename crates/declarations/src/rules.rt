// Rules, names and references: `parse_rule`, `parse_token_reference`.
// Text, token and store are three parameters: the token differs at each call, so a struct of the three would be made anew for each, and
// `Ready` proved there as it is now. `Ready` ties the three, and `string_of` ties a token to a part of the text, so they are clauses: no type
// of one of them can hold them.
ghost use Rattle.std.specs.Prelude.{◌≡◌, ◌+◌, Some};
ghost use Rattle.tokens.specs.Promise.{stream, string_of};
ghost use Rattle.parser.specs.Storing.{lent_of, Kept, nodes_of};
ghost use Rattle.parser.specs.Steps.{Ready, Parses, ParsesList};
ghost use Rattle.tree.specs.Promise.{kind_number};
ghost use Rattle.tree.specs.Stored.{rule_branch, reference_branch, name_branch, named_node_branch, literal_branch};
ghost use Rattle.error.specs.Promise.{cause_number};
ghost use Rattle.notation.specs.Declarations.{parse_rule, parse_token_reference, parse_named_node, names};
ghost use Rattle.declarations.specs.Promise.{literal_at};

use error::{Cause, Stop};
use lexer::{Part, Token};
use parser::parts::Shape;
pub use parser::parts::{parse_name, parse_name_numbered};
use parser::props::Comma;
use parser::store::Store;
use parser::{LEVELS, parts, props};
use tree::NodeKind;

// A rule, as a record of a kind. Inlined, as is all here that takes a `NodeKind`: the call is the one by its number.
#[inline(always)]
pub fn parse_rule(
    source: &[u8],
    token: Token,
    kind: NodeKind,
    store: &mut Store,
) -> Result<Token, Stop>
    requires { Ready source.now token (lent_of store.old) }
    ensures kept { Kept store.old store.new }
    ensures parses { Parses (parse_rule (stream source.now token)) (nodes_of (rule_branch (kind_number kind))) source.now token
        (lent_of store.old) (lent_of store.new) result }
{
    parse_rule_numbered(source, token, kind.number(), store)
}

// The same with the kind by its number, which need be no kind's.
pub fn parse_rule_numbered(
    source: &[u8],
    token: Token,
    kind: u32,
    store: &mut Store,
) -> Result<Token, Stop>
    requires { Ready source.now token (lent_of store.old) }
    ensures kept { Kept store.old store.new }
    ensures parses { Parses (parse_rule (stream source.now token)) (nodes_of (rule_branch kind)) source.now token
        (lent_of store.old) (lent_of store.new) result }
{
    let (name, named) = tokens::parse_identifier(source, token)?;
    let head = parts::rule_head(source, named, store)?;
    let body = parser::braced(source, LEVELS, head.token, store)?;
    store.put_named_numbered(
        kind,
        tokens::start(token),
        name.of(source),
        0,
        head.props + head.params + 1,
    );
    Ok(body.token)
}

// A name or a literal, or else a cause. It stands in no rule's body: its first bracket is level 1.
pub fn parse_token_reference(
    source: &[u8],
    token: Token,
    cause: Cause,
    store: &mut Store,
) -> Result<Token, Stop>
    requires { Ready source.now token (lent_of store.old) }
    ensures kept { Kept store.old store.new }
    ensures parses { Parses (parse_token_reference (cause_number cause) (stream source.now token)) (nodes_of reference_branch) source.now token
        (lent_of store.old) (lent_of store.new) result }
{
    let inner = parser::parse_expression_inner(source, LEVELS, token, store)?;
    match inner.shape {
        Shape::Name | Shape::Literal(_) => Ok(inner.token),
        _ => Err(Stop {
            cause,
            place: inner.start,
        }),
    }
}

// Names in braces, as records of a kind.
#[inline(always)]
pub fn parse_names(
    source: &[u8],
    token: Token,
    kind: NodeKind,
    store: &mut Store,
) -> Result<(Token, usize), Stop>
    requires { Ready source.now token (lent_of store.old) }
    ensures kept { Kept store.old store.new }
    ensures parses { ParsesList (names (stream source.now token)) (nodes_of (name_branch (kind_number kind))) source.now token 2
        (lent_of store.old) (lent_of store.new) result }
{
    parse_names_numbered(source, token, kind.number(), store)
}

// The same with the kind by its number, which need be no kind's.
pub fn parse_names_numbered(
    source: &[u8],
    token: Token,
    kind: u32,
    store: &mut Store,
) -> Result<(Token, usize), Stop>
    requires { Ready source.now token (lent_of store.old) }
    ensures kept { Kept store.old store.new }
    ensures parses { ParsesList (names (stream source.now token)) (nodes_of (name_branch kind)) source.now token 2
        (lent_of store.old) (lent_of store.new) result }
{
    let opened = tokens::expect_punctuation(source, token, '{' as u32)?;
    let name = |source: &[u8], token: Token, store: &mut Store| {
        parse_name_numbered(source, token, kind, store)
    };
    props::until(source, opened, '}' as u32, Comma::May, name, store)
}

// A name with its props.
pub fn parse_named_node(source: &[u8], token: Token, store: &mut Store) -> Result<Token, Stop>
    requires { Ready source.now token (lent_of store.old) }
    ensures kept { Kept store.old store.new }
    ensures parses { Parses (parse_named_node (stream source.now token)) (nodes_of named_node_branch) source.now token
        (lent_of store.old) (lent_of store.new) result }
{
    let (name, named) = tokens::parse_identifier(source, token)?;
    let (after, count) = props::parse_props(source, named, store)?;
    store.put_named(
        NodeKind::NamedNode,
        tokens::start(token),
        name.of(source),
        0,
        count,
    );
    Ok(after)
}

// A literal with its props, at its token.
pub fn parse_literal(
    source: &[u8],
    token: Token,
    body: Part,
    store: &mut Store,
) -> Result<Token, Stop>
    requires { Ready source.now token (lent_of store.old) × (string_of token ≡ Some body) }
    ensures kept { Kept store.old store.new }
    ensures parses { Parses (literal_at source.now body (stream source.now token)) (nodes_of literal_branch) source.now token
        (lent_of store.old) (lent_of store.new) result }
{
    let literal = tokens::next(source, token)?;
    let (after, count) = props::parse_props(source, literal, store)?;
    store.put_string(
        NodeKind::TokenLiteral,
        tokens::start(token),
        body.of(source),
        count,
    );
    Ok(after)
}
