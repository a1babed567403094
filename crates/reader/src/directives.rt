// Declarations that hold a block: `parse_tokens`, `parse_local_tokens`, `parse_external_tokens`, `parse_external_specializer`, `@skip`.
//
// Text, token and store are three parameters. The token differs at each call: a struct of the three would be made anew for each, and what is
// asked of them together (`Ready`, `Roomy`) proved there as it is now; changed in place, each contract would say besides that the text is
// the same. `seen`, `start` and `block` differ from call to call in the same way. `start ≤ length source.now` and `LiesIn` tie a place or
// a token to the text, and `length source.now ≤ 0x10000` bounds a slice: no type of one parameter says these. `IsToken` is what the caller
// has just seen: a type for tokens other than the end would be made a `Token` again for `next` and `start`.
ghost use Rattle.std.specs.Prelude.{◌≡◌, ◌≤◌, length};
ghost use Rattle.tree.specs.Promise.{kind_number, specialize_of};
ghost use Rattle.tree.specs.Stored.{declaration_branch};
ghost use Rattle.notation.specs.Declarations.{parse_tokens, parse_external_tokens, parse_external_specializer, parse_skip_declaration, declares};
ghost use Rattle.tokens.specs.Promise.{stream, start_in};
ghost use Rattle.parser.specs.Storing.{lent_of, Kept, nodes_of};
ghost use Rattle.parser.specs.Steps.{Parses};
ghost use Rattle.parser.specs.Shapes.{IsToken};
ghost use Rattle.reader.specs.Blocks.{Roomy};
ghost use Rattle.reader.specs.Directives.{past, local_at, tokens_branch, local_branch, external_set, set_nodes, Scopes, declared_of, declared_numbered, DeclaresTo};

use crate::blocks;
use crate::blocks::{Block, Extent, GROUPS};
use declarations::externals;
use error::{Cause, Stop};
use lexer::Token;
use parser::LEVELS;
use parser::store::Store;
use tree::{NodeKind, SpecializeKind};

// Which kinds were seen, of those of which there is at most one: four flags, each set by itself.
#[derive(Clone, Copy, Debug, PartialEq, Eq)]
pub struct Seen {
    pub tokens: bool,
    pub context: bool,
    pub precedence: bool,
    pub skip: bool,
}

// `Declared`, `Joined` and `Members` have a token and two fields each, and differ in these: kind and top rule, branches and kind, size and
// branches.

// A declaration is stored: the token after it, its kind, and whether it holds a top rule (a scoped skip may or may not, so that the kind
// does not tell).
#[derive(Clone, Copy, Debug, PartialEq, Eq)]
pub struct Declared {
    pub token: Token,
    pub kind: NodeKind,
    pub top: bool,
}

// What was read is a declaration of a kind.
pub fn of_kind(token: Token, kind: NodeKind, top: bool) -> Declared
    ensures { result ≡ declared_of kind top token }
{
    Declared { token, kind, top }
}

// The same with the kind by its number, which need be no kind's: so it is no `Declared`.
#[derive(Clone, Copy, Debug, PartialEq, Eq)]
pub struct DeclaredNumbered {
    pub token: Token,
    pub kind: u32,
    pub top: bool,
}

// What was read is a declaration of a kind that is given by its number.
pub fn of_kind_numbered(token: Token, kind: u32, top: bool) -> DeclaredNumbered
    ensures { result ≡ declared_numbered kind top token }
{
    DeclaredNumbered { token, kind, top }
}

// `@tokens`, at its keyword.
pub fn parse_tokens(source: &[u8], token: Token, store: &mut Store) -> Result<Token, Stop>
    requires { Roomy source.now token (lent_of store.old) × IsToken token }
    ensures kept { Kept store.old store.new }
    ensures parses { Parses (parse_tokens (stream source.now token)) (nodes_of tokens_branch) source.now token
        (lent_of store.old) (lent_of store.new) result }
{
    let keyword = tokens::next(source, token)?;
    let (after, count) = blocks::parse_block(source, Block::Tokens, keyword, store)?;
    store.put_plain(NodeKind::Tokens, tokens::start(token), 0, count);
    Ok(after)
}

// `tokens` and its block, after `@local`; it starts at `start`.
fn parse_local_tokens(
    source: &[u8],
    token: Token,
    start: usize,
    store: &mut Store,
) -> Result<Token, Stop>
    requires { Roomy source.now token (lent_of store.old) × (start ≤ length source.now) }
    ensures kept { Kept store.old store.new }
    ensures parses { Parses (local_at start (stream source.now token)) (nodes_of local_branch) source.now token
        (lent_of store.old) (lent_of store.new) result }
{
    let Some(word) = tokens::eat_identifier_value(source, token, b"tokens")? else {
        return Err(tokens::unexpected(token));
    };
    let (after, count) = blocks::parse_block(source, Block::LocalTokens, word, store)?;
    store.put_plain(NodeKind::LocalTokens, start, 0, count);
    Ok(after)
}

// `@local tokens`, at its keyword. Like `parse_external` but for what is called: two calls, and a parameter for the second would be no shorter.
pub fn parse_local(source: &[u8], token: Token, store: &mut Store) -> Result<Token, Stop>
    requires { Roomy source.now token (lent_of store.old) × IsToken token }
    ensures kept { Kept store.old store.new }
    ensures parses { Parses (past (local_at (start_in token)) (stream source.now token)) (nodes_of local_branch) source.now token
        (lent_of store.old) (lent_of store.new) result }
{
    let keyword = tokens::next(source, token)?;
    parse_local_tokens(source, keyword, tokens::start(token), store)
}

// The name, the source and the block of an external token set, at the name: 15, the block's members, and a record over them and
// `before` others.
fn parse_external_set(
    source: &[u8],
    token: Token,
    block: Block,
    kind: NodeKind,
    start: usize,
    value: u32,
    before: usize,
    store: &mut Store,
) -> Result<Token, Stop>
    requires { Roomy source.now token (lent_of store.old) × (start ≤ length source.now) × (before ≤ 1) }
    ensures kept { Kept store.old store.new }
    ensures parses { Parses (external_set block (stream source.now token)) (set_nodes block (kind_number kind) start value before) source.now token
        (lent_of store.old) (lent_of store.new) result }
{
    let (name, named) = tokens::parse_identifier(source, token)?;
    let (from, sourced) = externals::parse_source(source, named)?;
    store.put_string(NodeKind::Source, 0, from.of(source), 0);
    let (after, count) = blocks::parse_block(source, block, sourced, store)?;
    store.put_named(kind, start, name.of(source), value, before + 1 + count);
    Ok(after)
}

// `@external tokens`, at `tokens`; it starts at `start`. Like `parse_prop_source`: a word is passed, and a function called, but another one
// with other parameters.
pub fn parse_external_tokens(
    source: &[u8],
    token: Token,
    start: usize,
    store: &mut Store,
) -> Result<Token, Stop>
    requires { Roomy source.now token (lent_of store.old) × IsToken token × (start ≤ length source.now) }
    ensures kept { Kept store.old store.new }
    ensures parses { Parses (past (parse_external_tokens start) (stream source.now token)) (nodes_of declaration_branch) source.now token
        (lent_of store.old) (lent_of store.new) result }
{
    let word = tokens::next(source, token)?;
    parse_external_set(
        source,
        word,
        Block::ExternalTokens,
        NodeKind::ExternalTokens,
        start,
        0,
        0,
        store,
    )
}

// `@external extend` or `@external specialize`, at its second word; it starts at `start`.
pub fn parse_external_specializer(
    source: &[u8],
    token: Token,
    start: usize,
    kind: SpecializeKind,
    store: &mut Store,
) -> Result<Token, Stop>
    requires { Roomy source.now token (lent_of store.old) × IsToken token × (start ≤ length source.now) }
    ensures kept { Kept store.old store.new }
    ensures parses { Parses (past (parse_external_specializer start (specialize_of kind)) (stream source.now token)) (nodes_of declaration_branch) source.now token
        (lent_of store.old) (lent_of store.new) result }
{
    let word = tokens::next(source, token)?;
    let inside = parser::braced(source, LEVELS, word, store)?;
    parse_external_set(
        source,
        inside.token,
        Block::Specializer,
        NodeKind::ExternalSpecializer,
        start,
        kind.value(),
        1,
        store,
    )
}

// The members of a scoped skip, at its brace, behind its expression. Top rules are the first group: there is one if that has a size.
fn parse_scoped(
    source: &[u8],
    token: Token,
    start: usize,
    store: &mut Store,
) -> Result<Declared, Stop>
    requires { Roomy source.now token (lent_of store.old) × (start ≤ length source.now) }
    ensures kept { Kept store.old store.new }
    ensures scopes { Scopes start source.now token (lent_of store.old) (lent_of store.new) result }
{
    let opened = tokens::expect_punctuation(source, token, '{' as u32)?;
    let mut groups = [Extent::NONE; GROUPS];
    let (after, count) = blocks::parse_members(source, Block::Skip, opened, &mut groups, store)?;
    store.put_plain(NodeKind::ScopedSkip, start, 0, 1 + count);
    Ok(of_kind(after, NodeKind::ScopedSkip, groups[0].words != 0))
}

// `@skip`, at its keyword: a second main one is refused once the token behind its braces is read.
pub fn parse_skip(
    source: &[u8],
    token: Token,
    seen: Seen,
    store: &mut Store,
) -> Result<Declared, Stop>
    requires { Roomy source.now token (lent_of store.old) × IsToken token }
    ensures kept { Kept store.old store.new }
    ensures declares { DeclaresTo (λ before. past (declares (parse_skip_declaration (start_in token) before)) (stream source.now token)) seen source.now token
        (lent_of store.old) (lent_of store.new) result }
{
    let keyword = tokens::next(source, token)?;
    let inside = parser::braced(source, LEVELS, keyword, store)?;
    if tokens::mark(inside.token) == '{' as u32 {
        return parse_scoped(source, inside.token, inside.start, store);
    }
    if seen.skip {
        return Err(Stop {
            cause: Cause::SecondSkip,
            place: tokens::start(token),
        });
    }
    store.put_plain(NodeKind::MainSkip, inside.start, 0, 1);
    Ok(of_kind(inside.token, NodeKind::MainSkip, false))
}
