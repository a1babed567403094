// Declarations at top level: `parse_declaration`, `parse_external_declaration`. The head of directives.rt
// says why text, token and store are three parameters.
ghost use Rattle.std.specs.Prelude.{◌≡◌, ◌≤◌, length, Some};
ghost use Rattle.tree.specs.Stored.{declaration_branch};
ghost use Rattle.notation.specs.Parser.{pure};
ghost use Rattle.notation.specs.Members.{detect_delim};
ghost use Rattle.notation.specs.Declarations.{declares, parse_context_declaration, parse_external_prop_source, parse_external_declaration, parse_directive, parse_declaration};
ghost use Rattle.lexer.specs.Promise.{part_of};
ghost use Rattle.tokens.specs.Promise.{stream, start_in, at_of};
ghost use Rattle.parser.specs.Storing.{lent_of, Kept, nodes_of};
ghost use Rattle.parser.specs.Steps.{Ready, Parses};
ghost use Rattle.parser.specs.Shapes.{IsToken};
ghost use Rattle.reader.specs.Blocks.{Roomy};
ghost use Rattle.reader.specs.Directives.{past, top_at, prop_at, dialects_at, DeclaresTo};

use crate::directives::{Declared, Seen};
use crate::words::{Directive, External};
use crate::{directives, words};
use declarations::{blocks, externals, rules};
use error::{Cause, Stop};
use lexer::{Part, Token};
use parser::store::Store;
use tree::NodeKind;

// `@top`, at its keyword.
fn parse_top(source: &[u8], token: Token, store: &mut Store) -> Result<Token, Stop>
    requires { Ready source.now token (lent_of store.old) × IsToken token }
    ensures kept { Kept store.old store.new }
    ensures parses { Parses (past top_at (stream source.now token)) (nodes_of declaration_branch) source.now token
        (lent_of store.old) (lent_of store.new) result }
{
    let keyword = tokens::next(source, token)?;
    if tokens::name(keyword).is_none() {
        return Err(Stop {
            cause: Cause::TopWithoutName,
            place: tokens::start(keyword),
        });
    }
    rules::parse_rule(source, keyword, NodeKind::TopRule, store)
}

// `@context`, at its keyword; a second one is refused there.
fn parse_context(
    source: &[u8],
    token: Token,
    seen: Seen,
    store: &mut Store,
) -> Result<Declared, Stop>
    requires { Ready source.now token (lent_of store.old) × IsToken token }
    ensures kept { Kept store.old store.new }
    ensures declares { DeclaresTo (λ before. past (declares (parse_context_declaration (start_in token) before)) (stream source.now token)) seen source.now token
        (lent_of store.old) (lent_of store.new) result }
{
    let keyword = tokens::next(source, token)?;
    let start = tokens::start(token);
    if seen.context {
        return Err(Stop {
            cause: Cause::SecondContext,
            place: start,
        });
    }
    let after = externals::parse_from(source, keyword, NodeKind::Context, start, store)?;
    Ok(directives::of_kind(after, NodeKind::Context, false))
}

// `@external prop`, at `prop`; it starts at `start`.
fn parse_prop(
    source: &[u8],
    token: Token,
    seen: Seen,
    start: usize,
    store: &mut Store,
) -> Result<Declared, Stop>
    requires { Ready source.now token (lent_of store.old) × IsToken token × (start ≤ length source.now) }
    ensures kept { Kept store.old store.new }
    ensures declares { DeclaresTo (λ _. past (prop_at start) (stream source.now token)) seen source.now token
        (lent_of store.old) (lent_of store.new) result }
{
    let word = tokens::next(source, token)?;
    let after = externals::parse_external_prop(source, word, start, store)?;
    Ok(directives::of_kind(after, NodeKind::ExternalProp, false))
}

// `@external propSource`, at `propSource`; it starts at `start`. Like `parse_external_tokens`, but for the
// function that is called.
fn parse_prop_source(
    source: &[u8],
    token: Token,
    start: usize,
    store: &mut Store,
) -> Result<Token, Stop>
    requires { Ready source.now token (lent_of store.old) × IsToken token × (start ≤ length source.now) }
    ensures kept { Kept store.old store.new }
    ensures parses { Parses (past (parse_external_prop_source start) (stream source.now token)) (nodes_of declaration_branch) source.now token
        (lent_of store.old) (lent_of store.new) result }
{
    let word = tokens::next(source, token)?;
    externals::parse_from(source, word, NodeKind::PropSource, start, store)
}

// After `@external`; it starts at `start`.
fn parse_external_declaration(
    source: &[u8],
    token: Token,
    seen: Seen,
    start: usize,
    store: &mut Store,
) -> Result<Declared, Stop>
    requires { Roomy source.now token (lent_of store.old) × (start ≤ length source.now) }
    ensures kept { Kept store.old store.new }
    ensures declares { DeclaresTo (λ _. parse_external_declaration start (stream source.now token)) seen source.now token
        (lent_of store.old) (lent_of store.new) result }
{
    match words::which_external(source, tokens::name(token)) {
        Some(External::Tokens) => {
            let after = directives::parse_external_tokens(source, token, start, store)?;
            Ok(directives::of_kind(after, NodeKind::ExternalTokens, false))
        }
        Some(External::Prop) => parse_prop(source, token, seen, start, store),
        Some(External::Specializer(kind)) => {
            let after = directives::parse_external_specializer(source, token, start, kind, store)?;
            Ok(directives::of_kind(after, NodeKind::ExternalSpecializer, false))
        }
        Some(External::PropSource) => {
            let after = parse_prop_source(source, token, start, store)?;
            Ok(directives::of_kind(after, NodeKind::PropSource, false))
        }
        None => Err(tokens::unexpected(token)),
    }
}

// `@external`, at its keyword. Like `parse_local` but for what is called.
fn parse_external(
    source: &[u8],
    token: Token,
    seen: Seen,
    store: &mut Store,
) -> Result<Declared, Stop>
    requires { Roomy source.now token (lent_of store.old) × IsToken token }
    ensures kept { Kept store.old store.new }
    ensures declares { DeclaresTo (λ _. past (parse_external_declaration (start_in token)) (stream source.now token)) seen source.now token
        (lent_of store.old) (lent_of store.new) result }
{
    let keyword = tokens::next(source, token)?;
    parse_external_declaration(source, keyword, seen, tokens::start(token), store)
}

// `@dialects`, at its keyword: the names are read, and stored later if no other list replaces them.
fn parse_dialects(
    source: &[u8],
    token: Token,
    seen: Seen,
    store: &mut Store,
) -> Result<Declared, Stop>
    requires { Ready source.now token (lent_of store.old) × IsToken token }
    ensures kept { Kept store.old store.new }
    ensures declares { DeclaresTo (λ _. past dialects_at (stream source.now token)) seen source.now token
        (lent_of store.old) (lent_of store.new) result }
    ensures same { lent_of store.new ≡ lent_of store.old }
{
    let keyword = tokens::next(source, token)?;
    let (after, _) = rules::parse_names(
        source,
        keyword,
        NodeKind::Dialect,
        &mut Store::measuring(),
    )?;
    Ok(directives::of_kind(after, NodeKind::Dialect, false))
}

// `@detectDelim`, at its keyword.
fn parse_detect_delim(
    source: &[u8],
    token: Token,
    seen: Seen,
    store: &mut Store,
) -> Result<Declared, Stop>
    requires { Ready source.now token (lent_of store.old) × IsToken token }
    ensures kept { Kept store.old store.new }
    ensures declares { DeclaresTo (λ _. past (pure detect_delim) (stream source.now token)) seen source.now token
        (lent_of store.old) (lent_of store.new) result }
    ensures same { lent_of store.new ≡ lent_of store.old }
{
    let keyword = tokens::next(source, token)?;
    Ok(directives::of_kind(keyword, NodeKind::Grammar, false))
}

// A declaration that begins with a keyword. A second `@tokens` or `@precedence` is refused there.
fn parse_directive(
    source: &[u8],
    token: Token,
    seen: Seen,
    text: Part,
    store: &mut Store,
) -> Result<Declared, Stop>
    requires { Roomy source.now token (lent_of store.old) × (at_of token ≡ Some text) }
    ensures kept { Kept store.old store.new }
    ensures declares { DeclaresTo (λ before. parse_directive (start_in token) before (part_of source.now text) (stream source.now token)) seen source.now token
        (lent_of store.old) (lent_of store.new) result }
{
    match words::which_directive(source, Some(text)) {
        Some(Directive::Top) => {
            let after = parse_top(source, token, store)?;
            Ok(directives::of_kind(after, NodeKind::TopRule, true))
        }
        Some(Directive::Tokens) => {
            if seen.tokens {
                return Err(Stop {
                    cause: Cause::SecondTokens,
                    place: tokens::start(token),
                });
            }
            let after = directives::parse_tokens(source, token, store)?;
            Ok(directives::of_kind(after, NodeKind::Tokens, false))
        }
        Some(Directive::Local) => {
            let after = directives::parse_local(source, token, store)?;
            Ok(directives::of_kind(after, NodeKind::LocalTokens, false))
        }
        Some(Directive::Context) => parse_context(source, token, seen, store),
        Some(Directive::External) => parse_external(source, token, seen, store),
        Some(Directive::Dialects) => parse_dialects(source, token, seen, store),
        Some(Directive::Precedence) => {
            if seen.precedence {
                return Err(Stop {
                    cause: Cause::SecondPrecedence,
                    place: tokens::start(token),
                });
            }
            let after = blocks::parse_precedence(source, token, store)?;
            Ok(directives::of_kind(after, NodeKind::Precedences, false))
        }
        Some(Directive::DetectDelim) => parse_detect_delim(source, token, seen, store),
        Some(Directive::Skip) => directives::parse_skip(source, token, seen, store),
        None => Err(tokens::unexpected(token)),
    }
}

// A declaration, stored; `seen` says which kinds stand before it.
pub fn parse_declaration(
    source: &[u8],
    token: Token,
    seen: Seen,
    store: &mut Store,
) -> Result<Declared, Stop>
    requires { Roomy source.now token (lent_of store.old) }
    ensures kept { Kept store.old store.new }
    ensures declares { DeclaresTo (λ before. parse_declaration before (stream source.now token)) seen source.now token
        (lent_of store.old) (lent_of store.new) result }
{
    let Some(text) = tokens::at(token) else {
        let after = rules::parse_rule(source, token, NodeKind::Rule, store)?;
        return Ok(directives::of_kind(after, NodeKind::Rule, false));
    };
    parse_directive(source, token, seen, text, store)
}
