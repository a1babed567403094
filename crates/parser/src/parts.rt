// Parts of rules and expressions that hold no expression themselves.
// Text, token and store are three parameters, for the reason in lib.rt: the token differs at each call. Clauses that tie two or three
// parameters stay clauses, as no type of one of them can hold them: `Ready`, `Onward`, `ReadyInline`, `ReadyContent`, `IsPart`, `string_of`,
// `IsSet` and `start ≤ length source.now`. So do `IsToken` and `mark_of token ≡ 0x2E`, of the token alone: what is called with it
// (`tokens::next`, `tokens::start`) takes every token, so a type of some tokens only would be turned back to a token at each call.
ghost use Rattle.std.specs.Prelude.{◌≡◌, [], ◌∷◌, ◌+◌, ◌≤◌, ◌<◌, ◌^◌, length, Some};
ghost use Rattle.lexer.specs.Promise.{IsPart};
ghost use Rattle.tree.specs.Promise.{marker_of, kind_number};
ghost use Rattle.tree.specs.Stored.{name_branch};
ghost use Rattle.notation.specs.Limits.{repeats};
ghost use Rattle.notation.specs.Parser.{loop, parse_identifier};
ghost use Rattle.notation.specs.Expressions.{repeat_mark, marker_mark, parse_repeat};
ghost use Rattle.tokens.specs.Promise.{stream, start_in, mark_of, string_of};
ghost use Rattle.parser.specs.Storing.{lent_of, Kept, Stores, node, nodes_of};
ghost use Rattle.parser.specs.Steps.{Onward, Ready, Parses, ParsesList};
ghost use Rattle.parser.specs.Shapes.{IsToken, IsSet, repeated_of, marked_of, ends_by, stack_of, is_blank, empty_by, empty_first, sequence_shape, repeat_nodes, params_list, parse_params, ParsesHead, class_part, std_class, parse_any, parse_literal, parse_set, parse_marker, is_std, inline_bytes, ReadyInline, ParsesSpecializeHead, ReadyContent, StoresContent, Expresses, ExpressesItem};

use crate::props;
use crate::props::Comma;
use crate::store::Store;
use error::{Cause, Stop};
use lexer::{Part, Token};
use tree::{CharClass, ConflictMarkerKind, NodeKind, RepeatKind};

// How many repeats may stand one over another.
const REPEATS: usize = 64;

// What an expression is, so far as those around it ask: a name; a literal, with the part of the source between its quotes; so many
// stacked repeats; a sequence with no expression that is not explicitly empty; or any other.
#[derive(Clone, Copy, Debug, PartialEq, Eq)]
pub enum Shape {
    Name,
    Literal(Part),
    Repeat(usize),
    Blank,
    Other,
}

// `Expressed`, `Headed`, `Arms` and `Items` are alike in shape only: beside the token each holds other things, whose names one generic
// struct would lose.

// An expression is stored: the token after it, its start and its shape.
#[derive(Clone, Copy, Debug, PartialEq, Eq)]
pub struct Expressed {
    pub token: Token,
    pub start: usize,
    pub shape: Shape,
}

// The props and the params of a rule are stored: the token after them, and how many there are of each.
#[derive(Clone, Copy, Debug, PartialEq, Eq)]
pub struct Headed {
    pub token: Token,
    pub props: usize,
    pub params: usize,
}

// The arms behind the first are stored: the token after them, how many they are, and the start of the first empty one.
#[derive(Clone, Copy, Debug, PartialEq, Eq)]
pub struct Arms {
    pub token: Token,
    pub count: usize,
    pub empty: Option<usize>,
}

// An item of a sequence is stored: the token after it, or the expression. `props::Opened` has two ways too, but a token in each.
#[derive(Clone, Copy, Debug, PartialEq, Eq)]
pub enum Item {
    Marker(Token),
    Expression(Expressed),
}

// The items of a sequence are stored: the token after them, how many markers and how many expressions, and the start and the shape of
// the expression where it is the only one.
#[derive(Clone, Copy, Debug, PartialEq, Eq)]
pub struct Items {
    pub token: Token,
    pub markers: usize,
    pub expressions: usize,
    pub start: usize,
    pub shape: Shape,
}

// ------------------------------------------------------------------ rules

// A name alone, as a record of a kind. It is inlined: with a call here a text of params took 1.2 times as long.
#[inline(always)]
pub fn parse_name(
    source: &[u8],
    token: Token,
    kind: NodeKind,
    store: &mut Store,
) -> Result<Token, Stop>
    requires { Ready source.now token (lent_of store.old) }
    ensures kept { Kept store.old store.new }
    ensures parses { Parses (parse_identifier (stream source.now token)) (nodes_of (name_branch (kind_number kind))) source.now token
        (lent_of store.old) (lent_of store.new) result }
{
    parse_name_numbered(source, token, kind.number(), store)
}

// The same with the kind by its number, which need be no kind's. Inlined for the same reason.
#[inline(always)]
pub fn parse_name_numbered(
    source: &[u8],
    token: Token,
    kind: u32,
    store: &mut Store,
) -> Result<Token, Stop>
    requires { Ready source.now token (lent_of store.old) }
    ensures kept { Kept store.old store.new }
    ensures parses { Parses (parse_identifier (stream source.now token)) (nodes_of (name_branch kind)) source.now token
        (lent_of store.old) (lent_of store.new) result }
{
    let (name, named) = tokens::parse_identifier(source, token)?;
    store.put_named_numbered(kind, tokens::start(token), name.of(source), 0, 0);
    Ok(named)
}

// Params up to their bracket. Like `references_list` of `declarations` it is one call: mark, separator and item differ.
fn params_list(source: &[u8], token: Token, store: &mut Store) -> Result<(Token, usize), Stop>
    requires { Ready source.now token (lent_of store.old) }
    ensures kept { Kept store.old store.new }
    ensures parses { ParsesList (params_list (stream source.now token)) (nodes_of (name_branch 4)) source.now token 1
        (lent_of store.old) (lent_of store.new) result }
{
    let param = |source: &[u8], token: Token, store: &mut Store| {
        parse_name(source, token, NodeKind::Param, store)
    };
    props::until(source, token, '>' as u32, Comma::Must, param, store)
}

// `<` params `>`, or nothing.
fn parse_params(source: &[u8], token: Token, store: &mut Store) -> Result<(Token, usize), Stop>
    requires { Ready source.now token (lent_of store.old) }
    ensures kept { Kept store.old store.new }
    ensures parses { ParsesList (parse_params (stream source.now token)) (nodes_of (name_branch 4)) source.now token 0
        (lent_of store.old) (lent_of store.new) result }
{
    props::optional(source, token, '<' as u32, params_list, store)
}

// The props and the params of a rule: `parse_rule` after the name, up to the brace.
pub fn rule_head(source: &[u8], token: Token, store: &mut Store) -> Result<Headed, Stop>
    requires { Ready source.now token (lent_of store.old) }
    ensures kept { Kept store.old store.new }
    ensures parses { ParsesHead source.now token (lent_of store.old) (lent_of store.new) result }
{
    let (token, props) = props::parse_props(source, token, store)?;
    let (token, params) = parse_params(source, token, store)?;
    Ok(Headed {
        token,
        props,
        params,
    })
}

// ------------------------------------------------------------------ parts of expressions

// The class that a part of the current token names; the expression starts at `start`.
pub fn parse_class(
    source: &[u8],
    token: Token,
    start: usize,
    name: Part,
    store: &mut Store,
) -> Result<Expressed, Stop>
    requires { Ready source.now token (lent_of store.old) × IsToken token × IsPart source.now name × (start ≤ length source.now) }
    ensures kept { Kept store.old store.new }
    ensures parses { Expresses (class_part source.now start name (stream source.now token)) source.now token 1 0
        (lent_of store.old) (lent_of store.new) result }
{
    let Some(class) = CharClass::from_name(name.of(source)) else {
        return Err(tokens::unexpected(token));
    };
    let after = tokens::next(source, token)?;
    store.put_plain(NodeKind::Class, start, class.value(), 0);
    Ok(Expressed {
        token: after,
        start,
        shape: Shape::Other,
    })
}

// After `std` and its dot, which is the current token.
pub fn std_class(
    source: &[u8],
    token: Token,
    name: Token,
    store: &mut Store,
) -> Result<Expressed, Stop>
    requires { Ready source.now name (lent_of store.old) × Onward source.now name token 1 × (mark_of token ≡ 0x2E) }
    ensures kept { Kept store.old store.new }
    ensures parses { Expresses (std_class (start_in name) (stream source.now token)) source.now name 1 0
        (lent_of store.old) (lent_of store.new) result }
{
    let class = tokens::next(source, token)?;
    if let Some(part) = tokens::at(class) {
        return parse_class(source, class, tokens::start(name), part, store);
    }
    let Some(part) = tokens::name(class) else {
        return Err(tokens::unexpected(class));
    };
    parse_class(source, class, tokens::start(name), part, store)
}

// `_`, which is the current token.
pub fn parse_any(source: &[u8], token: Token, store: &mut Store) -> Result<Expressed, Stop>
    requires { Ready source.now token (lent_of store.old) × IsToken token }
    ensures kept { Kept store.old store.new }
    ensures parses { Expresses (parse_any (start_in token) (stream source.now token)) source.now token 1 0
        (lent_of store.old) (lent_of store.new) result }
{
    let after = tokens::next(source, token)?;
    let start = tokens::start(token);
    store.put_plain(NodeKind::Any, start, 0, 0);
    Ok(Expressed {
        token: after,
        start,
        shape: Shape::Other,
    })
}

// A string, which is the current token. An empty one is explicitly empty.
pub fn parse_literal_expression(
    source: &[u8],
    token: Token,
    body: Part,
    store: &mut Store,
) -> Result<Expressed, Stop>
    requires { Ready source.now token (lent_of store.old) × (string_of token ≡ Some body) }
    ensures kept { Kept store.old store.new }
    ensures parses { Expresses (parse_literal source.now (start_in token) body (stream source.now token)) source.now token 1 0
        (lent_of store.old) (lent_of store.new) result }
{
    let after = tokens::next(source, token)?;
    let start = tokens::start(token);
    let Some(_) = lexer::escapes::set_atom(body.of(source), 0) else {
        store.put_plain(NodeKind::Sequence, start, 1, 0);
        return Ok(Expressed {
            token: after,
            start,
            shape: Shape::Other,
        });
    };
    store.put_string(NodeKind::Literal, start, body.of(source), 0);
    Ok(Expressed {
        token: after,
        start,
        shape: Shape::Literal(body),
    })
}

// A set, which is the current token: its body is the part of the text between its brackets.
pub fn parse_set_expression(
    source: &[u8],
    token: Token,
    inverted: bool,
    body: Part,
    store: &mut Store,
) -> Result<Expressed, Stop>
    requires { Ready source.now token (lent_of store.old) × IsSet token inverted body }
    ensures kept { Kept store.old store.new }
    ensures parses { Expresses (parse_set source.now (start_in token) inverted body (stream source.now token)) source.now token 1 0
        (lent_of store.old) (lent_of store.new) result }
{
    let start = tokens::start(token);
    let count = match store.put_spans(start, body.of(source)) {
        Ok(count) => count,
        Err(cause) => return Err(Stop {
            cause,
            place: start,
        }),
    };
    let after = tokens::next(source, token)?;
    store.put_plain(NodeKind::Set, start, inverted as u32, count);
    Ok(Expressed {
        token: after,
        start,
        shape: Shape::Other,
    })
}

// ------------------------------------------------------------------ repeats

// The repeat that a mark stands for.
fn repeat_kind(mark: u32) -> Option<RepeatKind>
    ensures { repeated_of result ≡ repeat_mark mark }
{
    match mark {
        0x2A => Some(RepeatKind::ZeroOrMore),
        0x3F => Some(RepeatKind::Optional),
        0x2B => Some(RepeatKind::OneOrMore),
        _ => None,
    }
}

// The marks behind an operand that starts at `start` and has so many stacked repeats.
pub fn parse_repeats(
    source: &[u8],
    token: Token,
    start: usize,
    stack: usize,
    store: &mut Store,
) -> Result<(Token, usize), Stop>
    requires { Ready source.now token (lent_of store.old) × (start ≤ length source.now) × (stack ≤ repeats) }
    ensures kept { Kept store.old store.new }
    ensures parses { ParsesList (loop (parse_repeat stack) (stream source.now token)) (repeat_nodes start) source.now token 0
        (lent_of store.old) (lent_of store.new) result }
{
    let mut t = token;
    let mut count = 0;
    while let Some(kind) = repeat_kind(tokens::mark(t)) {
        if stack + count == REPEATS {
            return Err(Stop {
                cause: Cause::TooDeep,
                place: tokens::start(t),
            });
        }
        t = tokens::next(source, t)?;
        store.put_plain(NodeKind::Repeat, start, kind.value(), 1);
        count += 1;
    }
    Ok((t, count))
}

impl Shape {
    // How many repeats are stacked.
    pub fn stack(self) -> usize
        ensures { result ≡ stack_of self }
    {
        match self {
            Shape::Repeat(k) => k,
            _ => 0,
        }
    }

    fn is_blank(self) -> bool
        ensures { result ≡ is_blank self }
    {
        matches!(self, Shape::Blank)
    }
}

// ------------------------------------------------------------------ sequences and choices

// The marker that a mark stands for.
pub fn marker_kind(mark: u32) -> Option<ConflictMarkerKind>
    ensures { marked_of result ≡ marker_mark mark }
{
    match mark {
        0x7E => Some(ConflictMarkerKind::Ambiguity),
        0x21 => Some(ConflictMarkerKind::Precedence),
        _ => None,
    }
}

// What ends a sequence.
pub fn ends_sequence(token: Token) -> bool
    ensures { result ≡ ends_by token }
{
    match token {
        Token::Eof(_) => true,
        Token::Of(_, _, _) => matches!(
            tokens::mark(token),
            0x7D | 0x29 | 0x7C | 0x7B | 0x2C | 0x3E
        ),
    }
}

// A marker, whose mark is the current token. It answers as `item` of lib.rt does, which passes the answer on.
pub fn parse_marker(
    source: &[u8],
    token: Token,
    kind: ConflictMarkerKind,
    store: &mut Store,
) -> Result<Option<Item>, Stop>
    requires { Ready source.now token (lent_of store.old) × IsToken token }
    ensures kept { Kept store.old store.new }
    ensures parses { ExpressesItem (parse_marker (start_in token) (marker_of kind) (stream source.now token)) source.now token
        (lent_of store.old) (lent_of store.new) result }
{
    let marked = tokens::next(source, token)?;
    let (name, after) = tokens::parse_identifier(source, marked)?;
    store.put_named(kind.kind(), tokens::start(token), name.of(source), 0, 0);
    Ok(Some(Item::Marker(after)))
}

// The shape of a sequence with so many expressions that is not one expression alone.
pub fn sequence_shape(expressions: usize) -> Shape
    ensures { result ≡ sequence_shape expressions }
{
    if expressions == 0 {
        return Shape::Blank;
    }
    Shape::Other
}

// The first empty arm: an arm with this start and shape, or else one of those behind it.
pub fn first_of(start: usize, shape: Shape, empty: Option<usize>) -> Option<usize>
    ensures { result ≡ empty_first start shape empty }
{
    shape.is_blank().then_some(start).or(empty)
}

// The first empty arm: one of those before, or else an arm with this start and shape.
pub fn first_empty(empty: Option<usize>, start: usize, shape: Shape) -> Option<usize>
    ensures { result ≡ empty_by empty start shape }
{
    empty.or(shape.is_blank().then_some(start))
}

// After a keyword: props or none, and `<`.
pub fn specialize_head(
    source: &[u8],
    token: Token,
    store: &mut Store,
) -> Result<(Token, usize), Stop>
    requires { Ready source.now token (lent_of store.old) × IsToken token }
    ensures kept { Kept store.old store.new }
    ensures parses { ParsesSpecializeHead source.now token (lent_of store.old) (lent_of store.new) result }
{
    let keyword = tokens::next(source, token)?;
    let (propped, count) = props::parse_props(source, keyword, store)?;
    let opened = tokens::expect_punctuation(source, propped, '<' as u32)?;
    Ok((opened, count))
}

// The content where there is one part: a literal is stored again. Its start is p, and the whole starts at `start`, a place that a refusal
// names and at which nothing is read.
pub fn parse_specialize_content(
    source: &[u8],
    start: usize,
    p: usize,
    shape: Shape,
    store: &mut Store,
) -> Result<(), Stop>
    requires { ReadyContent source.now p shape (lent_of store.old) }
    ensures kept { Kept store.old store.new }
    ensures stores { StoresContent source.now start p shape (lent_of store.old) (lent_of store.new) result }
{
    let Shape::Literal(body) = shape else {
        return Err(Stop {
            cause: Cause::OnePart,
            place: start,
        });
    };
    store.put_string(NodeKind::Literal, p, body.of(source), 0);
    Ok(())
}

// Whether a name and the token after it are `std` and a dot.
pub fn is_std(source: &[u8], name: Part, token: Token) -> bool
    requires { IsPart source.now name }
    ensures { result ≡ is_std source.now name token }
{
    tokens::mark(token) == '.' as u32 && lexer::words::spells(name.of(source), b"std")
}

// The name of an inline rule.
pub fn put_inline(
    source: &[u8],
    name: Option<Part>,
    start: usize,
    children: usize,
    store: &mut Store,
)
    requires { ReadyInline source.now name start children (lent_of store.old) }
    ensures kept { Kept store.old store.new }
    ensures stores { Stores (node 32 start (inline_bytes source.now name) 0 0 children ∷ []) (lent_of store.old) (lent_of store.new) }
{
    match name {
        Some(name) => store.put_named(NodeKind::InlineRule, start, name.of(source), 0, children),
        None => store.put_named(NodeKind::InlineRule, start, b"_anon", 0, children),
    }
}
