// Declarations that name a source: contexts, prop sources, external props.
// Text, token and store are three parameters: the token differs at each call, so a struct of the three would be made anew for each, and
// `Ready` proved there as it is now. `Ready` ties the three, `LiesIn` ties text and token, `IsPart` text and part, and
// `start ≤ length source.now` text and place, so they are clauses: no type of one of them can hold them.
ghost use Rattle.std.specs.Prelude.{◌≤◌, length};
ghost use Rattle.lexer.specs.Promise.{IsPart};
ghost use Rattle.tree.specs.Promise.{kind_number};
ghost use Rattle.tree.specs.Stored.{external_prop_branch};
ghost use Rattle.notation.specs.Declarations.{parse_external_prop};
ghost use Rattle.tokens.specs.Promise.{stream, LiesIn};
ghost use Rattle.parser.specs.Storing.{lent_of, Kept, nodes_of};
ghost use Rattle.parser.specs.Steps.{Ready, Parses};
ghost use Rattle.declarations.specs.Sources.{TakesSource, from_source, from_branch, TakesId};

use error::Stop;
use lexer::{Part, Token};
use parser::store::Store;
use tree::NodeKind;

// `from "source"`.
pub fn parse_source(source: &[u8], token: Token) -> Result<(Part, Token), Stop>
    requires { LiesIn source.now 0 token }
    ensures { TakesSource source.now token result }
{
    let Some(from) = tokens::eat_identifier_value(source, token, b"from")? else {
        return Err(tokens::unexpected(token));
    };
    tokens::expect_string(source, from)
}

// A name and its source, as a record of a kind that starts at `start`. Inlined: the call is the one by the kind's number.
#[inline(always)]
pub fn parse_from(
    source: &[u8],
    token: Token,
    kind: NodeKind,
    start: usize,
    store: &mut Store,
) -> Result<Token, Stop>
    requires { Ready source.now token (lent_of store.old) × (start ≤ length source.now) }
    ensures kept { Kept store.old store.new }
    ensures parses { Parses (from_source (stream source.now token)) (nodes_of (from_branch (kind_number kind) start)) source.now token
        (lent_of store.old) (lent_of store.new) result }
{
    parse_from_numbered(source, token, kind.number(), start, store)
}

// The same with the kind by its number, which need be no kind's.
pub fn parse_from_numbered(
    source: &[u8],
    token: Token,
    kind: u32,
    start: usize,
    store: &mut Store,
) -> Result<Token, Stop>
    requires { Ready source.now token (lent_of store.old) × (start ≤ length source.now) }
    ensures kept { Kept store.old store.new }
    ensures parses { Parses (from_source (stream source.now token)) (nodes_of (from_branch kind start)) source.now token
        (lent_of store.old) (lent_of store.new) result }
{
    let (name, named) = tokens::parse_identifier(source, token)?;
    let (from, after) = parse_source(source, named)?;
    store.put_string(NodeKind::Source, 0, from.of(source), 0);
    store.put_named_numbered(kind, start, name.of(source), 0, 1);
    Ok(after)
}

// The name after `as`, or else the name before.
fn parse_as(source: &[u8], token: Token, name: Part) -> Result<(Part, Token), Stop>
    requires { LiesIn source.now 0 token × IsPart source.now name }
    ensures { TakesId source.now token name result }
{
    match tokens::eat_identifier_value(source, token, b"as")? {
        Some(renamed) => tokens::parse_identifier(source, renamed),
        None => Ok((name, token)),
    }
}

// After `@external prop`; it starts at `start`.
pub fn parse_external_prop(
    source: &[u8],
    token: Token,
    start: usize,
    store: &mut Store,
) -> Result<Token, Stop>
    requires { Ready source.now token (lent_of store.old) × (start ≤ length source.now) }
    ensures kept { Kept store.old store.new }
    ensures parses { Parses (parse_external_prop start (stream source.now token)) (nodes_of external_prop_branch) source.now token
        (lent_of store.old) (lent_of store.new) result }
{
    let (name, named) = tokens::parse_identifier(source, token)?;
    let (id, known) = parse_as(source, named, name)?;
    let (from, after) = parse_source(source, known)?;
    store.put_named(
        NodeKind::ExternalName,
        tokens::start(token),
        name.of(source),
        0,
        0,
    );
    store.put_string(NodeKind::Source, 0, from.of(source), 0);
    store.put_named(NodeKind::ExternalProp, start, id.of(source), 0, 2);
    Ok(after)
}
