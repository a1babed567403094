// Token precedences and conflicts, precedences: `parse_token_precedence`, `parse_token_conflict`, `parse_precedence`.
// Text, token and store are three parameters: the token differs at each call, so a struct of the three would be made anew for each, and
// `Ready` proved there as it is now. `Ready` ties the three, and `LiesIn` ties text and token, so they are clauses: no type of one of them
// can hold them. So is `IsToken`: `tokens::next` and `tokens::start` take the end too, and a type without the end would be turned back
// at each call.
ghost use Rattle.std.specs.Prelude.{ℕ, List};
ghost use Rattle.tokens.specs.Promise.{stream, start_in, LiesIn};
ghost use Rattle.tree.specs.Promise.{kind_number};
ghost use Rattle.tree.specs.Records.{Node};
ghost use Rattle.parser.specs.Storing.{lent_of, Kept, nodes_of};
ghost use Rattle.parser.specs.Steps.{Ready, Parses, ParsesList};
ghost use Rattle.parser.specs.Lists.{MayRead};
ghost use Rattle.parser.specs.Shapes.{IsToken};
ghost use Rattle.error.specs.Causes.{bad_precedence};
ghost use Rattle.tree.specs.Stored.{reference_branch, token_prec_branch, token_conflict_branch, prec_item_branch};
ghost use Rattle.notation.specs.Parser.{Parser, eat, until, comma_or_not};
ghost use Rattle.notation.specs.Declarations.{parse_token_reference, parse_token_precedence, parse_token_conflict, parse_prec_item, parse_precedence};
ghost use Rattle.declarations.specs.Promise.{TakesPrec, precedence_branch, conflict_pair};
ghost use Rattle.declarations.specs.Blocks.{ReadsFew, block_of, block_nodes};

use crate::rules;
use error::{Cause, Stop};
use lexer::Token;
use parser::props;
use parser::props::Comma;
use parser::store::Store;
use tree::{NodeKind, PrecKind};

// A keyword, and what a function that is passed reads in its braces, as a record of a kind.
fn block<F: Fn(&[u8], Token, &mut Store) -> Result<(Token, usize), Stop>>(
    source: &[u8],
    token: Token,
    kind: NodeKind,
    inside: F,
    store: &mut Store,
) -> Result<Token, Stop>
    requires ready { Ready source.now token (lent_of store.old) × IsToken token }
    requires calls { MayRead source.now (F.pre inside) }
    requires reads { (p : Parser ℕ (List (List Node))) × ReadsFew source.now (F.post inside) p }
    ensures kept { Kept store.old store.new }
    ensures parses { (p : Parser ℕ (List (List Node))) → ReadsFew source.now (F.post inside) p → Parses (block_of p (stream source.now token)) (block_nodes (kind_number kind) (start_in token)) source.now token
        (lent_of store.old) (lent_of store.new) result }
{
    let keyword = tokens::next(source, token)?;
    let opened = tokens::expect_punctuation(source, keyword, '{' as u32)?;
    let (closed, count) = inside(source, opened, store)?;
    store.put_plain(kind, tokens::start(token), 0, count);
    Ok(closed)
}

// References up to their brace. Like `params_list` of `parser` it is one call: mark, separator and item differ.
fn references_list(source: &[u8], token: Token, store: &mut Store) -> Result<(Token, usize), Stop>
    requires { Ready source.now token (lent_of store.old) }
    ensures kept { Kept store.old store.new }
    ensures parses { ParsesList (until (eat "}") comma_or_not (λ _. parse_token_reference bad_precedence) (stream source.now token)) (nodes_of reference_branch) source.now token 1
        (lent_of store.old) (lent_of store.new) result }
{
    let reference = |source: &[u8], token: Token, store: &mut Store| {
        rules::parse_token_reference(source, token, Cause::BadPrecedence, store)
    };
    props::until(source, token, '}' as u32, Comma::May, reference, store)
}

// `@precedence` in a token block, at its keyword.
pub fn parse_token_precedence(source: &[u8], token: Token, store: &mut Store) -> Result<Token, Stop>
    requires { Ready source.now token (lent_of store.old) × IsToken token }
    ensures kept { Kept store.old store.new }
    ensures parses { Parses (parse_token_precedence (stream source.now token)) (nodes_of token_prec_branch) source.now token
        (lent_of store.old) (lent_of store.new) result }
{
    block(
        source,
        token,
        NodeKind::TokenPrecedence,
        references_list,
        store,
    )
}

// `@conflict` in a token block, after its brace: two references.
fn conflict_pair(source: &[u8], token: Token, store: &mut Store) -> Result<(Token, usize), Stop>
    requires { Ready source.now token (lent_of store.old) }
    ensures kept { Kept store.old store.new }
    ensures parses { ParsesList (conflict_pair (stream source.now token)) (nodes_of reference_branch) source.now token 2
        (lent_of store.old) (lent_of store.new) result }
{
    let one = rules::parse_token_reference(source, token, Cause::BadConflict, store)?;
    let between = props::between(source, one, Comma::May)?;
    let two = rules::parse_token_reference(source, between, Cause::BadConflict, store)?;
    let closed = tokens::expect_punctuation(source, two, '}' as u32)?;
    Ok((closed, 2))
}

// `@conflict` in a token block, at its keyword.
pub fn parse_token_conflict(source: &[u8], token: Token, store: &mut Store) -> Result<Token, Stop>
    requires { Ready source.now token (lent_of store.old) × IsToken token }
    ensures kept { Kept store.old store.new }
    ensures parses { Parses (parse_token_conflict (stream source.now token)) (nodes_of token_conflict_branch) source.now token
        (lent_of store.old) (lent_of store.new) result }
{
    block(source, token, NodeKind::TokenConflict, conflict_pair, store)
}

// `@left`, `@right`, `@cut` or nothing, and the token after it.
fn parse_prec_kind(source: &[u8], token: Token) -> Result<(Option<PrecKind>, Token), Stop>
    requires { LiesIn source.now 0 token }
    ensures { TakesPrec source.now token result }
{
    if let Some(after) = tokens::eat_at(source, token, b"left")? {
        return Ok((Some(PrecKind::Left), after));
    }
    if let Some(after) = tokens::eat_at(source, token, b"right")? {
        return Ok((Some(PrecKind::Right), after));
    }
    if let Some(after) = tokens::eat_at(source, token, b"cut")? {
        return Ok((Some(PrecKind::Cut), after));
    }
    Ok((None, token))
}

fn parse_prec_item(source: &[u8], token: Token, store: &mut Store) -> Result<Token, Stop>
    requires { Ready source.now token (lent_of store.old) }
    ensures kept { Kept store.old store.new }
    ensures parses { Parses (parse_prec_item (stream source.now token)) (nodes_of prec_item_branch) source.now token
        (lent_of store.old) (lent_of store.new) result }
{
    let (name, named) = tokens::parse_identifier(source, token)?;
    let (kind, after) = parse_prec_kind(source, named)?;
    store.put_named(
        NodeKind::PrecedenceItem,
        tokens::start(token),
        name.of(source),
        tree::prec_value(kind),
        0,
    );
    Ok(after)
}

// Items up to their brace.
fn prec_items_list(source: &[u8], token: Token, store: &mut Store) -> Result<(Token, usize), Stop>
    requires { Ready source.now token (lent_of store.old) }
    ensures kept { Kept store.old store.new }
    ensures parses { ParsesList (until (eat "}") comma_or_not (λ _. parse_prec_item) (stream source.now token)) (nodes_of prec_item_branch) source.now token 1
        (lent_of store.old) (lent_of store.new) result }
{
    props::until(
        source,
        token,
        '}' as u32,
        Comma::May,
        parse_prec_item,
        store,
    )
}

// `@precedence` at top level, at its keyword.
pub fn parse_precedence(source: &[u8], token: Token, store: &mut Store) -> Result<Token, Stop>
    requires { Ready source.now token (lent_of store.old) × IsToken token }
    ensures kept { Kept store.old store.new }
    ensures parses { Parses (parse_precedence (stream source.now token)) (nodes_of precedence_branch) source.now token
        (lent_of store.old) (lent_of store.new) result }
{
    block(source, token, NodeKind::Precedences, prec_items_list, store)
}
