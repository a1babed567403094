// The whole of a grammar file, from its first token on. A first pass measures each group; a second stores each declaration in its group.
// The head of directives.rt says why text, token and store are three parameters.
ghost use Rattle.std.specs.Prelude.{◌≤◌, ◌≡◌, eqb, length};
ghost use Rattle.basics.specs.Basics.{if◌then◌otherwise◌};
ghost use Rattle.notation.specs.Parser.{next as next_d};
ghost use Rattle.tokens.specs.Promise.{stream, LiesIn, Whole as Spelled, text_in};
ghost use Rattle.tree.specs.Promise.{kind_number};
ghost use Rattle.parser.specs.Storing.{lent_of, Kept};
ghost use Rattle.reader.specs.Places.{place_in, words_in, bytes_in, Blank, Begins};
ghost use Rattle.reader.specs.Ahead.{external_kind, external_ahead, kind_ahead, ahead_number};
ghost use Rattle.reader.specs.Whole.{group_count, PlacesTo, records_of, note_of, PassesTo, HasNames, NamesTo, stored_kinds, Known, MeasuredTo, First, Measures, Reads};

use crate::blocks::Extent;
use crate::directives::{Declared, Seen};
use crate::words::{Directive, External};
use crate::{blocks, top, words};
use declarations::rules;
use error::{Cause, Stop};
use lexer::{Part, Token};
use parser::store::Store;
use tree::NodeKind;

// How many groups of declarations there are: one for each kind that is stored, and one for what has no records in a group.
const GROUPS: usize = 13;

// How many words the grammar's own record has.
const WIDTH: usize = 7;

// The last group that is stored, that of external props in `place`: the dialects stand before it.
const LAST: usize = 11;

// What a pass has seen: which kinds, a top rule, `@detectDelim`, and where the last list of dialects begins. Each by itself: the flags say
// nothing about the dialects.
#[derive(Clone, Copy, Debug, PartialEq, Eq)]
pub struct Noted {
    pub seen: Seen,
    pub top: bool,
    pub delim: bool,
    pub dialects: Option<Token>,
}

// All declarations are stored: the end, how much they take, how many records of the grammar's own they have, and what was noted. `Refusal` and
// `Seen` have four fields too, which are numbers and flags.
#[derive(Clone, Copy, Debug, PartialEq, Eq)]
pub struct Passed {
    pub end: Token,
    pub size: Extent,
    pub count: usize,
    pub noted: Noted,
}

// All is measured: what was noted, how many records the grammar's own holds, and how much the tree takes.
#[derive(Clone, Copy, Debug, PartialEq, Eq)]
pub struct Measurement {
    pub noted: Noted,
    pub count: usize,
    pub size: Extent,
}

// The number of a kind's group, or 12 where it has none. A table, no conversion: most kinds share the last number.
fn place(kind: NodeKind) -> usize
    ensures { result ≡ place_in stored_kinds (kind_number kind) }
{
    match kind {
        NodeKind::TopRule => 0,
        NodeKind::Rule => 1,
        NodeKind::Tokens => 2,
        NodeKind::LocalTokens => 3,
        NodeKind::Context => 4,
        NodeKind::ExternalTokens => 5,
        NodeKind::ExternalSpecializer => 6,
        NodeKind::PropSource => 7,
        NodeKind::Precedences => 8,
        NodeKind::MainSkip => 9,
        NodeKind::ScopedSkip => 10,
        NodeKind::ExternalProp => 11,
        _ => 12,
    }
}

// A declaration whose kind is not known ahead, stored where its group goes on, and how much it takes; the place of the group moves on. A
// first reading, over nothing, shows its kind, and is enough where nothing is lent.
fn declaration_measured(
    source: &[u8],
    token: Token,
    seen: Seen,
    places: &mut [Extent],
    store: &mut Store,
) -> Result<(Declared, Extent), Stop>
    requires { Begins group_count 0x10000000 source.now token (words_in places.old) (bytes_in places.old) }
    ensures kept { Kept store.old store.new }
    ensures places { PlacesTo seen source.now token places.old places.new store.old store.new result }
{
    let mut measuring = Store::measuring();
    let declared = top::parse_declaration(source, token, seen, &mut measuring)?;
    let size = Extent {
        words: measuring.n,
        bytes: measuring.x,
    };
    let p = place(declared.kind);
    let Extent { words, bytes } = places[p];
    places[p] = Extent {
        words: words + size.words,
        bytes: bytes + size.bytes,
    };
    if !store.is_measuring() {
        store.n = words;
        store.x = bytes;
        top::parse_declaration(source, token, seen, store)?;
    }
    Ok((declared, size))
}

// The kind of an external declaration, from the name after `@external`, where it is known.
fn external_kind(source: &[u8], name: Option<Part>) -> Option<NodeKind>
    requires { Spelled source.now name }
    ensures { ahead_number result ≡ external_kind (text_in source.now name) }
{
    match words::which_external(source, name) {
        Some(External::Tokens) => Some(NodeKind::ExternalTokens),
        Some(External::Prop) => Some(NodeKind::ExternalProp),
        Some(External::Specializer(_)) => Some(NodeKind::ExternalSpecializer),
        Some(External::PropSource) => Some(NodeKind::PropSource),
        None => None,
    }
}

// The kind of what stands at `@external`, where it is known.
fn external_ahead(source: &[u8], token: Token) -> Option<NodeKind>
    ensures { ahead_number result ≡ external_ahead (next_d (stream source.now token)) }
{
    let Ok(word) = tokens::next(source, token) else {
        return None;
    };
    external_kind(source, tokens::name(word))
}

// The kind of a declaration, from its first tokens, where it is known: before it is read, when `parse_directive` answers it.
fn kind_ahead(source: &[u8], token: Token) -> Option<NodeKind>
    requires { LiesIn source.now 0 token }
    ensures { ahead_number result ≡ kind_ahead (stream source.now token) }
{
    let at = tokens::at(token);
    match words::which_directive(source, at) {
        Some(Directive::Top) => Some(NodeKind::TopRule),
        Some(Directive::Tokens) => Some(NodeKind::Tokens),
        Some(Directive::Local) => Some(NodeKind::LocalTokens),
        Some(Directive::Context) => Some(NodeKind::Context),
        Some(Directive::External) => external_ahead(source, token),
        Some(Directive::Dialects) => Some(NodeKind::Dialect),
        Some(Directive::Precedence) => Some(NodeKind::Precedences),
        Some(Directive::DetectDelim) => Some(NodeKind::Grammar),
        Some(Directive::Skip) => None,
        None => {
            if at.is_none() {
                return Some(NodeKind::Rule);
            }
            None
        }
    }
}

// A declaration, stored where its group goes on, and how much it takes; the place of the group moves on.
fn declaration_placed(
    source: &[u8],
    token: Token,
    seen: Seen,
    places: &mut [Extent],
    store: &mut Store,
) -> Result<(Declared, Extent), Stop>
    requires { Begins group_count 0x10000000 source.now token (words_in places.old) (bytes_in places.old) }
    ensures kept { Kept store.old store.new }
    ensures places { PlacesTo seen source.now token places.old places.new store.old store.new result }
{
    let Some(ahead) = kind_ahead(source, token) else {
        return declaration_measured(source, token, seen, places, store);
    };
    let p = place(ahead);
    let Extent { words, bytes } = places[p];
    store.n = words;
    store.x = bytes;
    let declared = top::parse_declaration(source, token, seen, store)?;
    places[p] = Extent {
        words: store.n,
        bytes: store.x,
    };
    Ok((
        declared,
        Extent {
            words: store.n - words,
            bytes: store.x - bytes,
        },
    ))
}

impl Noted {
    const NOTHING: Noted = Noted {
        seen: Seen {
            tokens: false,
            context: false,
            precedence: false,
            skip: false,
        },
        top: false,
        delim: false,
        dialects: None,
    };

    // A declaration of a kind, which begins at a token, is noted.
    fn note(self, token: Token, kind: NodeKind, top: bool) -> Noted
        ensures { result ≡ note_of self token (kind_number kind) top }
    {
        let seen = self.seen;
        let noted = Noted {
            top: self.top | top,
            ..self
        };
        match kind {
            NodeKind::Tokens => Noted {
                seen: Seen {
                    tokens: true,
                    ..seen
                },
                ..noted
            },
            NodeKind::Context => Noted {
                seen: Seen {
                    context: true,
                    ..seen
                },
                ..noted
            },
            NodeKind::Precedences => Noted {
                seen: Seen {
                    precedence: true,
                    ..seen
                },
                ..noted
            },
            NodeKind::MainSkip => Noted {
                seen: Seen { skip: true, ..seen },
                ..noted
            },
            NodeKind::Grammar => Noted {
                delim: true,
                ..noted
            },
            NodeKind::Dialect => Noted {
                dialects: Some(token),
                ..noted
            },
            _ => noted,
        }
    }
}

// How many records of its own a declaration of a kind has; dialects are counted apart. A table, no conversion.
fn records_of(kind: NodeKind) -> usize
    ensures { result ≡ records_of (kind_number kind) }
{
    match kind {
        NodeKind::Grammar | NodeKind::Dialect => 0,
        _ => 1,
    }
}

// All declarations up to the end, each stored where its group goes on.
fn pass(
    source: &[u8],
    token: Token,
    places: &mut [Extent],
    store: &mut Store,
) -> Result<Passed, Stop>
    requires { Begins group_count 0x1000000 source.now token (words_in places.old) (bytes_in places.old) }
    ensures kept { Kept store.old store.new }
    ensures passes { PassesTo source.now token places.old places.new store.old store.new result }
{
    let mut t = token;
    let mut words = 0;
    let mut bytes = 0;
    let mut count = 0;
    let mut noted = Noted::NOTHING;
    while let Token::Of(_, _, _) = t {
        let (declared, size) = declaration_placed(source, t, noted.seen, places, store)?;
        noted = noted.note(t, declared.kind, declared.top);
        count += records_of(declared.kind);
        t = declared.token;
        words += size.words;
        bytes += size.bytes;
    }
    Ok(Passed {
        end: t,
        size: Extent { words, bytes },
        count,
        noted,
    })
}

// The names of the last `@dialects`: how many.
fn dialects(source: &[u8], noted: Noted, store: &mut Store) -> Result<usize, Stop>
    requires { HasNames source.now noted × (length source.now ≤ 0x10000) × (store.old.n ≤ 0x10000000) × (store.old.x ≤ 0x10000000) }
    ensures kept { Kept store.old store.new }
    ensures names { NamesTo source.now noted (lent_of store.old) (lent_of store.new) result }
{
    let Some(last) = noted.dialects else {
        return Ok(0);
    };
    let keyword = tokens::next(source, last)?;
    let (_, count) = rules::parse_names(source, keyword, NodeKind::Dialect, store)?;
    Ok(count)
}

// All that was measured is stored: the dialects before the last group, the groups, the grammar's record.
fn store_groups(
    source: &[u8],
    token: Token,
    noted: Noted,
    count: usize,
    groups: &mut [Extent],
    store: &mut Store,
) -> Result<Extent, Stop>
    requires { (length source.now ≤ 0x10000) × LiesIn source.now 0 token
        × Known source.now token noted count groups.old store.old.records.now store.old.texts.now }
    ensures kept { Kept store.old store.new }
    ensures reads { Reads source.now store.old.records.now store.old.texts.now store.new.records.now store.new.texts.now result }
{
    blocks::line_up(groups, Extent::NONE);
    store.n = groups[LAST].words;
    store.x = groups[LAST].bytes;
    dialects(source, noted, store)?;
    groups[LAST] = Extent {
        words: store.n,
        bytes: store.x,
    };
    pass(source, token, groups, store)?;
    store.n = groups[LAST].words;
    store.x = groups[LAST].bytes;
    store.put_plain(
        NodeKind::Grammar,
        tokens::start(token),
        noted.delim as u32,
        count,
    );
    Ok(Extent {
        words: store.n,
        bytes: store.x,
    })
}

// From the first token on, each group is measured, and the whole: the first pass, and the names of the last `@dialects`.
fn measure_groups(source: &[u8], token: Token, groups: &mut [Extent]) -> Result<Measurement, Stop>
    requires { (length source.now ≤ 0x10000) × First source.now token × Blank group_count (words_in groups.old) × Blank group_count (bytes_in groups.old) }
    ensures { MeasuredTo source.now token groups.new result }
{
    let mut measuring = Store::measuring();
    let Passed {
        end,
        size,
        count,
        noted,
    } = pass(source, token, groups, &mut measuring)?;
    if !noted.top {
        return Err(Stop {
            cause: Cause::NoTop,
            place: tokens::start(end),
        });
    }
    measuring.n = size.words;
    measuring.x = size.bytes;
    let named = dialects(source, noted, &mut measuring)?;
    Ok(Measurement {
        noted,
        count: count + named,
        size: Extent {
            words: measuring.n + WIDTH,
            bytes: measuring.x,
        },
    })
}

// From the first token on, how many words and bytes the tree of a text takes.
pub fn measure_from(source: &[u8], token: Token) -> Result<Extent, Stop>
    requires { (length source.now ≤ 0x10000) × First source.now token }
    ensures { Measures source.now result }
{
    let mut groups = [Extent::NONE; GROUPS];
    let measured = measure_groups(source, token, &mut groups)?;
    Ok(measured.size)
}

// From the first token on, with room for the sizes of the groups.
fn parse_over(
    source: &[u8],
    token: Token,
    groups: &mut [Extent],
    store: &mut Store,
) -> Result<Extent, Stop>
    requires { (length source.now ≤ 0x10000) × First source.now token × Blank group_count (words_in groups.old) × Blank group_count (bytes_in groups.old) }
    ensures kept { Kept store.old store.new }
    ensures reads { Reads source.now store.old.records.now store.old.texts.now store.new.records.now store.new.texts.now result }
{
    let Measurement { noted, count, size } = measure_groups(source, token, groups)?;
    if store.records.len() < size.words {
        return Err(Stop {
            cause: Cause::RecordsFull,
            place: 0,
        });
    }
    if store.texts.len() < size.bytes {
        return Err(Stop {
            cause: Cause::TextsFull,
            place: 0,
        });
    }
    store_groups(source, token, noted, count, groups, store)
}

// From the first token on, the tree of a text is measured, and stored where there is room for all of it.
pub fn parse_from(
    source: &[u8],
    token: Token,
    records: &mut [u32],
    texts: &mut [u8],
) -> Result<Extent, Stop>
    requires { (length source.now ≤ 0x10000) × First source.now token }
    ensures { Reads source.now records.old texts.old records.new texts.new result }
{
    let mut groups = [Extent::NONE; GROUPS];
    let mut store = Store {
        records,
        n: 0,
        texts,
        x: 0,
    };
    parse_over(source, token, &mut groups, &mut store)
}
