// The normal text of a stored tree.
//
// Each writer of a record, of what stands in it or between its children, is lent the unwritten rest of the output. It writes at the front of
// that, and answers how many bytes it has written. It counts where the rest is too short as well, so that the caller learns what
// length would do.
//
// One walk serves all kinds of records: what stands before, between and after them is looked up by their kinds (specs/Walk.antt). Every
// token has its space in front, but the first of a line.
#![tactic(auto)]

ghost use Rattle.std.specs.Prelude.{ℕ, ◌≡◌, ◌≤◌, ◌<◌, ◌^◌, true, eqb, ◌++◌};
ghost use Rattle.tree.specs.Promise.{count_of, word_at, kind_number, kind_before as kind_at};
ghost use Rattle.writer.specs.Promise.{Run, Stored, WroteNormal, WroteNormalWithin};
ghost use Rattle.writer.specs.Rows.{row_of};
ghost use Rattle.output.specs.Promise.{Wrote};
ghost use Rattle.writer.specs.Walk.{number_of, setting_number, class as class_d, comma, opens, shuts, new_line, between, source, link, tail, setting as setting_d, in_brackets, is_line, tokenless, lead, ends, before, spelled, after, own, close, last_at, front, back, WroteOne, WroteRun, text_for, dialect_ends, detect_words, closing};

mod rows;

use output::{put, put_codes, put_quoted, upto};
use rows::Row;
use tree::{
    CHILDREN, CharClass, NodeKind, PrecKind, RepeatKind, SECOND, SpecializeKind, Tree, count,
    first, flag_of, kind_before, word,
};

// The text is longer than it may be.
#[derive(Clone, Copy, Debug, PartialEq, Eq)]
pub struct TooLong;

// How children stand in a record.
#[derive(Clone, Copy, Debug, PartialEq, Eq)]
enum Setting {
    Lines,
    Arms,
    Slots,
    Other,
}

// Kinds whose records stand in one list have one class.
#[tactic(auto, unfolding(crate::specs::Walk::class))]
fn class(kind: NodeKind) -> NodeKind
    ensures { kind_number result ≡ class_d (kind_number kind) }
{
    if kind.is_expression() {
        NodeKind::Name
    } else if kind == NodeKind::PartName {
        NodeKind::PartText
    } else {
        kind
    }
}

// How children stand in a record of a kind. No `From`: this is a table of what the normal text does, and a kind is not a setting.
#[tactic(auto, unfolding(crate::specs::Walk::setting))]
fn setting_of(parent: NodeKind) -> Setting
    ensures { setting_number result ≡ setting_d (kind_number parent) }
{
    match parent {
        NodeKind::Grammar => Setting::Lines,
        NodeKind::Choice => Setting::Arms,
        NodeKind::Sequence | NodeKind::Repeat => Setting::Slots,
        _ => Setting::Other,
    }
}

// A record is a line of its own.
#[tactic(auto, unfolding(crate::specs::Walk::is_line))]
fn is_line(setting: Setting, kind: NodeKind) -> bool
    ensures { result ≡ is_line (setting_number setting) (kind_number kind) }
{
    setting == Setting::Lines && kind != NodeKind::Dialect
}

// A record begins with no token of its own.
#[tactic(auto, unfolding(crate::specs::Walk::tokenless))]
fn is_tokenless(kind: NodeKind, value: u32) -> bool
    ensures { result ≡ tokenless (kind_number kind) value }
{
    match kind {
        NodeKind::Choice | NodeKind::Repeat | NodeKind::Span => true,
        NodeKind::Sequence => flag_of(value) == Some(false),
        _ => false,
    }
}

// Between two children of one class.
#[tactic(auto, unfolding(crate::specs::Walk::comma, crate::specs::Walk::text_for))]
fn comma(parent: NodeKind, child: NodeKind) -> &'static [u8]
    ensures { result.now ≡ comma (kind_number parent) (kind_number child) }
{
    match child {
        NodeKind::Name => match parent {
            NodeKind::Choice => b" |",
            NodeKind::TokenPrecedence
            | NodeKind::TokenConflict
            | NodeKind::Name
            | NodeKind::Specialize => b" ,",
            _ => b"",
        },
        NodeKind::Param
        | NodeKind::Prop
        | NodeKind::NamedNode
        | NodeKind::ConflictName
        | NodeKind::PrecedenceItem => b" ,",
        _ => b"",
    }
}

// Before the first child of a class.
#[tactic(auto, unfolding(crate::specs::Walk::opens, crate::specs::Walk::text_for))]
fn opens(parent: NodeKind, child: NodeKind) -> &'static [u8]
    ensures { result.now ≡ opens (kind_number parent) (kind_number child) }
{
    match child {
        NodeKind::Name => match parent {
            NodeKind::TopRule | NodeKind::Rule | NodeKind::InlineRule => b" {",
            NodeKind::Name | NodeKind::Specialize => b" <",
            _ => b"",
        },
        NodeKind::NamedNode => match parent {
            NodeKind::LocalTokens => b" @else",
            _ => b"",
        },
        NodeKind::Param => b" <",
        NodeKind::Prop => b" [",
        NodeKind::PartText => b" =",
        NodeKind::ConflictName => b" @conflict {",
        _ => b"",
    }
}

// After the last of a class, where another follows.
#[tactic(auto, unfolding(crate::specs::Walk::shuts, crate::specs::Walk::text_for))]
fn shuts(left: Option<NodeKind>) -> &'static [u8]
    ensures { result.now ≡ shuts (number_of left) }
{
    match left {
        Some(NodeKind::Param) => b" >",
        Some(NodeKind::Prop) => b" ]",
        Some(NodeKind::NamedNode) => b" ,",
        _ => b"",
    }
}

// Between two lines.
#[tactic(auto, unfolding(crate::specs::Walk::new_line))]
fn new_line(left: Option<NodeKind>, child: NodeKind) -> &'static [u8]
    ensures { result.now ≡ new_line (number_of left) (kind_number child) }
{
    match (left, child) {
        (Some(NodeKind::Dialect), NodeKind::Dialect) => b" ,",
        (Some(NodeKind::Dialect), _) => b" }\n",
        (_, NodeKind::Dialect) => b"@dialects {",
        _ => b"",
    }
}

// After a child, whatever follows.
#[tactic(auto, unfolding(crate::specs::Walk::tail, crate::specs::Walk::text_for))]
fn tail(parent: NodeKind, child: NodeKind) -> &'static [u8]
    ensures { result.now ≡ tail (kind_number parent) (kind_number child) }
{
    match child {
        NodeKind::Name => match parent {
            NodeKind::ExternalSpecializer => b" }",
            NodeKind::ScopedSkip => b" } {",
            _ => b"",
        },
        NodeKind::Source => match parent {
            NodeKind::ExternalTokens | NodeKind::ExternalSpecializer => b" {",
            _ => b"",
        },
        NodeKind::ExternalName => b" as",
        _ => b"",
    }
}

// What stands before a record's text.
#[tactic(auto, unfolding(crate::specs::Walk::before, crate::specs::Walk::text_for))]
fn before(kind: NodeKind, value: u32) -> &'static [u8]
    ensures { result.now ≡ before (kind_number kind) value }
{
    match kind {
        NodeKind::Prop => match flag_of(value) {
            Some(true) => b"@",
            _ => b"",
        },
        NodeKind::ExternalSpecializer => match SpecializeKind::try_from(value) {
            Ok(SpecializeKind::Extend) => b"@external extend {",
            Ok(SpecializeKind::Specialize) => b"@external specialize {",
            Err(_) => b"",
        },
        NodeKind::Specialize => match SpecializeKind::try_from(value) {
            Ok(SpecializeKind::Extend) => b"@extend",
            Ok(SpecializeKind::Specialize) => b"@specialize",
            Err(_) => b"",
        },
        NodeKind::Sequence => match flag_of(value) {
            Some(true) => b"( )",
            _ => b"",
        },
        NodeKind::Set => match flag_of(value) {
            Some(false) => b"$[",
            Some(true) => b"![",
            None => b"",
        },
        NodeKind::Class => match CharClass::try_from(value) {
            Ok(CharClass::AsciiLetter) => b"@asciiLetter",
            Ok(CharClass::AsciiLowercase) => b"@asciiLowercase",
            Ok(CharClass::AsciiUppercase) => b"@asciiUppercase",
            Ok(CharClass::Digit) => b"@digit",
            Ok(CharClass::Whitespace) => b"@whitespace",
            Ok(CharClass::Eof) => b"@eof",
            Err(_) => b"",
        },
        NodeKind::TopRule => b"@top ",
        NodeKind::PartName => b"{ ",
        NodeKind::Tokens => b"@tokens {",
        NodeKind::TokenPrecedence => b"@precedence {",
        NodeKind::TokenConflict => b"@conflict {",
        NodeKind::LocalTokens => b"@local tokens {",
        NodeKind::Context => b"@context",
        NodeKind::ExternalTokens => b"@external tokens",
        NodeKind::PropSource => b"@external propSource",
        NodeKind::Precedences => b"@precedence {",
        NodeKind::MainSkip | NodeKind::ScopedSkip => b"@skip {",
        NodeKind::ExternalProp => b"@external prop",
        NodeKind::Any => b"_",
        NodeKind::AmbiguityMarker => b"~ ",
        NodeKind::PrecedenceMarker => b"! ",
        _ => b"",
    }
}

// What stands after it.
#[tactic(auto, unfolding(crate::specs::Walk::after, crate::specs::Walk::text_for))]
fn after(kind: NodeKind, value: u32) -> &'static [u8]
    ensures { result.now ≡ after (kind_number kind) value }
{
    match kind {
        NodeKind::PrecedenceItem => match PrecKind::try_from(value) {
            Ok(PrecKind::Left) => b" @left",
            Ok(PrecKind::Right) => b" @right",
            Ok(PrecKind::Cut) => b" @cut",
            Err(_) => b"",
        },
        NodeKind::PartName => b" }",
        _ => b"",
    }
}

// What stands after a record's children.
#[tactic(auto, unfolding(crate::specs::Walk::close, crate::specs::Walk::block_end, crate::specs::Walk::text_for))]
fn close(kind: NodeKind, value: u32, last: Option<NodeKind>) -> &'static [u8]
    ensures { result.now ≡ close (kind_number kind) value (number_of last) }
{
    match kind {
        NodeKind::Repeat => match RepeatKind::try_from(value) {
            Ok(RepeatKind::Optional) => b" ?",
            Ok(RepeatKind::ZeroOrMore) => b" *",
            Ok(RepeatKind::OneOrMore) => b" +",
            Err(_) => b"",
        },
        NodeKind::TokenLiteral | NodeKind::NamedNode | NodeKind::Name => match last {
            Some(NodeKind::Prop) => b" ]",
            Some(NodeKind::Name) => b" >",
            _ => b"",
        },
        NodeKind::ExternalTokens => match last {
            Some(NodeKind::ConflictName) => b" } }",
            _ => b" }",
        },
        NodeKind::TopRule
        | NodeKind::Rule
        | NodeKind::Tokens
        | NodeKind::TokenPrecedence
        | NodeKind::TokenConflict
        | NodeKind::LocalTokens
        | NodeKind::ExternalSpecializer
        | NodeKind::Precedences
        | NodeKind::MainSkip
        | NodeKind::ScopedSkip
        | NodeKind::InlineRule => b" }",
        NodeKind::Specialize => b" >",
        NodeKind::Set => b"]",
        _ => b"",
    }
}

// After the last dialect, where no line follows.
#[tactic(auto, unfolding(crate::specs::Walk::text_for))]
fn dialect_end(last: Option<NodeKind>) -> &'static [u8]
    ensures { result.now ≡ text_for dialect_ends (number_of last) }
{
    match last {
        Some(NodeKind::Dialect) => b" }\n",
        _ => b"",
    }
}

// `@detectDelim`, the last line.
#[tactic(auto, unfolding(crate::specs::Walk::text_for))]
fn detect_word(value: u32) -> &'static [u8]
    ensures { result.now ≡ text_for detect_words value }
{
    match flag_of(value) {
        Some(true) => b"@detectDelim\n",
        _ => b"",
    }
}

// A child is of the class of the one before it.
fn follows(left: Option<NodeKind>, child: NodeKind) -> bool
    ensures { result ≡ eqb (number_of left) (kind_number child) }
{
    left == Some(child)
}

// Between two children: what ends the list of the one, and what goes on with it or begins that of the other.
#[tactic(auto, unfolding(crate::specs::Walk::between, crate::specs::Walk::separator))]
fn put_between(parent: NodeKind, left: Option<NodeKind>, child: NodeKind, out: &mut [u8]) -> usize
    ensures { Wrote (between (kind_number parent) (number_of left) (kind_number child)) out.old out.new result }
{
    match parent {
        NodeKind::Grammar => put(new_line(left, child), out),
        NodeKind::Tokens
        | NodeKind::LocalTokens
        | NodeKind::ScopedSkip
        | NodeKind::Sequence
        | NodeKind::Set => put(opens(parent, child), out),
        _ if follows(left, child) => put(comma(parent, child), out),
        _ => {
            let n = put(shuts(left), out);
            let a = upto(n, out.len());
            n + put(opens(parent, child), &mut out[a..])
        }
    }
}

impl<'a> Row<'a> {
    // It stands in round brackets.
    #[tactic(auto, unfolding(crate::specs::Walk::in_brackets))]
    fn is_bracketed(&self, setting: Setting) -> bool
        ensures { result ≡ in_brackets (setting_number setting) (kind_number self.now.kind) self.now.value }
    {
        match self.kind {
            NodeKind::Choice => setting == Setting::Arms || setting == Setting::Slots,
            NodeKind::Sequence => {
                flag_of(self.value) == Some(false) && setting == Setting::Slots
            }
            _ => false,
        }
    }

    // What stands before it: a space, or an opening bracket. This and `put_ends` are no tables of texts: `put` of a text that is known where it
    // is called is no loop, and one of the two writes at most records.
    #[tactic(auto, unfolding(crate::specs::Walk::lead))]
    fn put_lead(&self, setting: Setting, out: &mut [u8]) -> usize
        ensures { Wrote (lead (setting_number setting) (kind_number self.now.kind) self.now.value) out.old out.new result }
    {
        if self.is_bracketed(setting) {
            put(b" (", out)
        } else if is_tokenless(self.kind, self.value) || is_line(setting, self.kind) {
            0
        } else {
            put(b" ", out)
        }
    }

    // What stands after it: a closing bracket, or a line feed.
    #[tactic(auto, unfolding(crate::specs::Walk::ends))]
    fn put_ends(&self, setting: Setting, out: &mut [u8]) -> usize
        ensures { Wrote (ends (setting_number setting) (kind_number self.now.kind) self.now.value) out.old out.new result }
    {
        if self.is_bracketed(setting) {
            put(b" )", out)
        } else if is_line(setting, self.kind) {
            put(b"\n", out)
        } else {
            0
        }
    }

    // Its own text: a string, a span's codes, none where it stands before the source string, or a name.
    fn put_spelled(&self, out: &mut [u8]) -> usize
        ensures { Wrote (spelled (row_of self.now)) out.old out.new result }
    {
        match self.kind {
            NodeKind::PartText | NodeKind::TokenLiteral | NodeKind::Source | NodeKind::Literal => {
                put_quoted(self.tree.text(self.i), out)
            }
            NodeKind::Span => put_codes(self.value, word(self.tree.records, self.i, SECOND), out),
            NodeKind::Context
            | NodeKind::ExternalTokens
            | NodeKind::ExternalSpecializer
            | NodeKind::PropSource
            | NodeKind::ExternalProp => 0,
            _ => put(self.tree.text(self.i), out),
        }
    }

    // The record by itself: what stands before its text, that, and what stands after it.
    fn put_own(&self, out: &mut [u8]) -> usize
        ensures { Wrote (own (row_of self.now)) out.old out.new result }
    {
        let mut n = put(before(self.kind, self.value), out);
        let a = upto(n, out.len());
        n += self.put_spelled(&mut out[a..]);
        let b = upto(n, out.len());
        n + put(after(self.kind, self.value), &mut out[b..])
    }

    // The record's name before a child that is a source string.
    fn put_source(&self, child: NodeKind, out: &mut [u8]) -> usize
        ensures { Wrote (source (row_of self.now).text (kind_number child)) out.old out.new result }
    {
        let NodeKind::Source = child else {
            return 0;
        };
        let mut n = put(b" ", out);
        let a = upto(n, out.len());
        n += put(self.tree.text(self.i), &mut out[a..]);
        let b = upto(n, out.len());
        n + put(b" from", &mut out[b..])
    }

    // What stands between two of its children.
    fn put_link(&self, left: Option<NodeKind>, child: NodeKind, out: &mut [u8]) -> usize
        ensures { Wrote (link (row_of self.now) (number_of left) (kind_number child)) out.old out.new result }
    {
        let n = put_between(self.kind, left, child, out);
        let a = upto(n, out.len());
        n + self.put_source(child, &mut out[a..])
    }

    // All that stands before the children of a child, behind one of the class `left`. Out of line, as `put_back`: what it needs of the stack
    // is then not held by each level of `one` and `run`.
    #[inline(never)]
    fn put_front(&self, left: Option<NodeKind>, row: &Row, out: &mut [u8]) -> usize
        ensures { Wrote (front (row_of self.now) (number_of left) (row_of row.now)) out.old out.new result }
    {
        let mut n = self.put_link(left, class(row.kind), out);
        let a = upto(n, out.len());
        n += row.put_lead(setting_of(self.kind), &mut out[a..]);
        let b = upto(n, out.len());
        n + row.put_own(&mut out[b..])
    }

    // The class of the last branch that ends before the record `end`, if one does.
    fn class_before(&self, end: usize) -> Option<NodeKind>
        requires { end ≤ count_of self.now.tree.records.now }
        ensures { number_of result ≡ class_d (kind_at self.now.tree.records.now end) }
    {
        Some(class(kind_before(self.tree.records, end)?))
    }

    // The class of its last child, if it has one.
    fn last_class(&self) -> Option<NodeKind>
        ensures { number_of result ≡ last_at self.now.tree.records.now self.now.i }
    {
        if word(self.tree.records, self.i, CHILDREN) == 0 {
            return None;
        }
        self.class_before(self.i)
    }

    // All that stands after the children of a child.
    #[inline(never)]
    fn put_back(&self, row: &Row, out: &mut [u8]) -> usize
        ensures { Wrote (back (row_of self.now).kind (row_of row.now) (last_at row.now.tree.records.now row.now.i)) out.old out.new result }
    {
        let mut n = put(close(row.kind, row.value, row.last_class()), out);
        let a = upto(n, out.len());
        n += row.put_ends(setting_of(self.kind), &mut out[a..]);
        let b = upto(n, out.len());
        n + put(tail(self.kind, class(row.kind)), &mut out[b..])
    }
}

// How many children a record has; and all words have 32 bits. No `Row`: clause `sizes` is needed to make one.
fn children(records: &[u32], i: usize) -> usize
    requires { i < count_of records.now }
    ensures value { result ≡ word_at records.now i 6 }
    ensures sizes { (k : ℕ) → word_at records.now k 3 < 2 ^ 32 }
{
    word(records, i, CHILDREN) as usize
}

// The children of a record. Many records have none, and then `run` is not called.
#[cycle(one_run)]
#[inline(always)]
fn inside(row: &Row, out: &mut [u8]) -> usize
    requires { Run row.now.tree.records.now row.now.tree.texts.now (word_at row.now.tree.records.now row.now.i 6) row.now.i }
    ensures { WroteRun row.now.tree.records.now row.now.tree.texts.now row.now.i 0 (word_at row.now.tree.records.now row.now.i 6) row.now.i out.old out.new result }
{
    match children(row.tree.records, row.i) {
        0 => 0,
        count => run(row, None, row.i, count, out),
    }
}

// The branch whose record is i, a child of the record `parent` behind one of the class `left`.
#[cycle(one_run)]
fn one(parent: &Row, left: Option<NodeKind>, i: usize, out: &mut [u8]) -> usize
    requires { (i < count_of parent.now.tree.records.now) × Run parent.now.tree.records.now parent.now.tree.texts.now (word_at parent.now.tree.records.now i 6) i }
    ensures { WroteOne parent.now.tree.records.now parent.now.tree.texts.now parent.now.i (number_of left) i out.old out.new result }
{
    let row = Row::of(parent.tree, i);
    let mut n = parent.put_front(left, &row, out);
    let a = upto(n, out.len());
    n += inside(&row, &mut out[a..]);
    let b = upto(n, out.len());
    n + parent.put_back(&row, &mut out[b..])
}

// The last `count` branches that end before the record `end`, first to last: each half of them by itself, so that calls stand no deeper
// for many siblings than their number's digits.
#[cycle(one_run)]
fn run(parent: &Row, left: Option<NodeKind>, end: usize, count: usize, out: &mut [u8]) -> usize
    requires { (end ≤ count_of parent.now.tree.records.now) × Run parent.now.tree.records.now parent.now.tree.texts.now count end }
    ensures { WroteRun parent.now.tree.records.now parent.now.tree.texts.now parent.now.i (number_of left) count end out.old out.new result }
{
    if count == 0 {
        return 0;
    }
    if count == 1 {
        return one(parent, left, end - 1, out);
    }
    let half = count / 2;
    let mid = first(parent.tree.records, end, half);
    let n = run(parent, left, mid, count - half, out);
    let a = upto(n, out.len());
    n + run(parent, parent.class_before(mid), end, half, &mut out[a..])
}

// What stands after the last line: the end of the dialects, and `@detectDelim`.
fn put_closing(value: u32, last: Option<NodeKind>, out: &mut [u8]) -> usize
    ensures { Wrote (closing value (number_of last)) out.old out.new result }
{
    let n = put(dialect_end(last), out);
    let a = upto(n, out.len());
    n + put(detect_word(value), &mut out[a..])
}

// The normal text of a grammar at the front of the output, and how many bytes it has. Where it does not fit, it is counted all the same, and
// nothing is said of the output's bytes: a call with no bytes lent measures.
pub fn normal_text(tree: Tree, out: &mut [u8]) -> usize
    requires { Stored tree.records.now tree.texts.now }
    ensures { WroteNormal tree.entry.records.now tree.entry.texts.now out.old out.new result }
{
    let last = count(tree.records) - 1;
    let children = children(tree.records, last);
    let root = Row::of(tree, last);
    let n = run(&root, None, last, children, out);
    let a = upto(n, out.len());
    n + put_closing(root.value, root.last_class(), &mut out[a..])
}

// The normal text, where it has at most `limit` bytes and fits the output. It is measured first, so that the output is otherwise as it was.
pub fn write_normal_text(tree: Tree, limit: usize, out: &mut [u8]) -> Result<usize, TooLong>
    requires { Stored tree.records.now tree.texts.now }
    ensures { WroteNormalWithin tree.entry.records.now tree.entry.texts.now limit out.old out.new result }
{
    let room = out.len();
    let n = normal_text(tree, &mut out[..0]);
    if limit < n {
        return Err(TooLong);
    }
    if room < n {
        return Err(TooLong);
    }
    Ok(normal_text(tree, out))
}
