// The stored tree: records of seven words, children before their parent, and the bytes of their texts.
// Whether words and texts are one tree, and whether two trees are structurally equal. Nothing is copied, there is no stack and no
// recursion: a branch is passed by counting back over its records.
#![tactic(auto)]

ghost use Rattle.std.specs.Prelude.{◌≡◌, ◌+◌, ◌-◌, ◌≤◌, ◌<◌, map, reverse, length, drop};
ghost use Rattle.basics.specs.Basics.{among, same};
ghost use Rattle.characters.specs.Promise.{written};
ghost use Rattle.characters.specs.Utf8.{codes, encode_all};
ghost use Rattle.tree.specs.Records.{width, words_of};
ghost use Rattle.tree.specs.CharClasses.{ranges, class_value, from_name};
ghost use Rattle.tree.specs.Stored.{repeat_value, specialize_value, marker_number, prec_value};
ghost use Rattle.tree.specs.OneTree.{is_expression, has_text, value_fits, values_fit, groups_of, text_fits, begins, without, children_fit, record_fits, build};
ghost use Rattle.tree.specs.Promise.{kind_number, IsKindOf, IsKind, IsClassOf, IsRepeatOf, IsSpecializeOf, IsPrecOf, IsFlag, class_of, class_in, repeat_of, specialize_of, marker_of, prec_in, record_of, IsRecord, span_of, count_of, word_at, record_at, node_at, Inside, first_place, kind_before, kinds_back, kinds_of, group_of, root_of, is_some, same_node, comparison};

// How many words a record has, and which is which.
pub const WIDTH: usize = 7;

pub const KIND: usize = 0;

const START: usize = 1;

const PLACE: usize = 2;

const SIZE: usize = 3;

pub const VALUE: usize = 4;

pub const SECOND: usize = 5;

pub const CHILDREN: usize = 6;

// What stands as value and second where a record has none.
const NO_VALUE: u32 = 0;

// One past the last code that a character may have.
const PAST_LAST_CODE: u32 = char::MAX as u32 + 1;

// The kinds of records, by the numbers that their words have.
#[derive(Clone, Copy, Debug, PartialEq, Eq)]
pub enum NodeKind {
    Grammar = 1,
    TopRule,
    Rule,
    Param,
    Prop,
    PartText,
    PartName,
    Tokens,
    TokenPrecedence,
    TokenConflict,
    TokenLiteral,
    LocalTokens,
    NamedNode,
    Context,
    Source,
    ExternalTokens,
    ConflictName,
    ExternalSpecializer,
    PropSource,
    Precedences,
    PrecedenceItem,
    MainSkip,
    ScopedSkip,
    Dialect,
    ExternalProp,
    ExternalName,
    Name = 30,
    Specialize,
    InlineRule,
    Choice,
    Sequence,
    Repeat,
    Literal,
    Set,
    Span,
    Any,
    Class,
    AmbiguityMarker,
    PrecedenceMarker,
}

// A number that stands for no kind or value.
#[derive(Clone, Copy, Debug, PartialEq, Eq)]
pub struct NotAKind;

// Each `try_from` of this file lists its numbers: no cast makes an enum of a number, and no `impl` of ours may be written by a macro.
impl TryFrom<u32> for NodeKind {
    type Error = NotAKind;

    ghost try_from_gives = { IsKindOf };

    fn try_from(number: u32) -> Result<NodeKind, NotAKind> {
        match number {
            1 => Ok(NodeKind::Grammar),
            2 => Ok(NodeKind::TopRule),
            3 => Ok(NodeKind::Rule),
            4 => Ok(NodeKind::Param),
            5 => Ok(NodeKind::Prop),
            6 => Ok(NodeKind::PartText),
            7 => Ok(NodeKind::PartName),
            8 => Ok(NodeKind::Tokens),
            9 => Ok(NodeKind::TokenPrecedence),
            10 => Ok(NodeKind::TokenConflict),
            11 => Ok(NodeKind::TokenLiteral),
            12 => Ok(NodeKind::LocalTokens),
            13 => Ok(NodeKind::NamedNode),
            14 => Ok(NodeKind::Context),
            15 => Ok(NodeKind::Source),
            16 => Ok(NodeKind::ExternalTokens),
            17 => Ok(NodeKind::ConflictName),
            18 => Ok(NodeKind::ExternalSpecializer),
            19 => Ok(NodeKind::PropSource),
            20 => Ok(NodeKind::Precedences),
            21 => Ok(NodeKind::PrecedenceItem),
            22 => Ok(NodeKind::MainSkip),
            23 => Ok(NodeKind::ScopedSkip),
            24 => Ok(NodeKind::Dialect),
            25 => Ok(NodeKind::ExternalProp),
            26 => Ok(NodeKind::ExternalName),
            30 => Ok(NodeKind::Name),
            31 => Ok(NodeKind::Specialize),
            32 => Ok(NodeKind::InlineRule),
            33 => Ok(NodeKind::Choice),
            34 => Ok(NodeKind::Sequence),
            35 => Ok(NodeKind::Repeat),
            36 => Ok(NodeKind::Literal),
            37 => Ok(NodeKind::Set),
            38 => Ok(NodeKind::Span),
            39 => Ok(NodeKind::Any),
            40 => Ok(NodeKind::Class),
            41 => Ok(NodeKind::AmbiguityMarker),
            42 => Ok(NodeKind::PrecedenceMarker),
            _ => Err(NotAKind),
        }
    }
}

impl NodeKind {
    // The first word of a record of this kind. This and each `value` below are methods and not `From`: one cast either way, and
    // `u32::from(kind)` would not say which word of a record it is.
    pub fn number(self) -> u32
        ensures { result ≡ kind_number self }
    {
        self as u32
    }

    pub fn is_expression(self) -> bool
        ensures { result ≡ is_expression (kind_number self) }
    {
        matches!(
            self,
            NodeKind::Name
                | NodeKind::Specialize
                | NodeKind::InlineRule
                | NodeKind::Choice
                | NodeKind::Sequence
                | NodeKind::Repeat
                | NodeKind::Literal
                | NodeKind::Set
                | NodeKind::Any
                | NodeKind::Class
        )
    }

    fn has_text(self) -> bool
        ensures { result ≡ has_text (kind_number self) }
    {
        matches!(
            self,
            NodeKind::TopRule
                | NodeKind::Rule
                | NodeKind::Param
                | NodeKind::Prop
                | NodeKind::PartText
                | NodeKind::PartName
                | NodeKind::TokenLiteral
                | NodeKind::NamedNode
                | NodeKind::Context
                | NodeKind::Source
                | NodeKind::ExternalTokens
                | NodeKind::ConflictName
                | NodeKind::ExternalSpecializer
                | NodeKind::PropSource
                | NodeKind::PrecedenceItem
                | NodeKind::Dialect
                | NodeKind::ExternalProp
                | NodeKind::ExternalName
                | NodeKind::Name
                | NodeKind::InlineRule
                | NodeKind::Literal
                | NodeKind::AmbiguityMarker
                | NodeKind::PrecedenceMarker
        )
    }

    // The values of a kind, where the second word is 0.
    fn value_fits(self, value: u32) -> bool
        ensures { result ≡ value_fits (kind_number self) value }
    {
        match self {
            NodeKind::Grammar | NodeKind::Prop | NodeKind::Sequence | NodeKind::Set => {
                flag_of(value).is_some()
            }
            NodeKind::ExternalSpecializer | NodeKind::Specialize => {
                SpecializeKind::try_from(value).is_ok()
            }
            NodeKind::Repeat => RepeatKind::try_from(value).is_ok(),
            NodeKind::PrecedenceItem => { value == NO_VALUE || PrecKind::try_from(value).is_ok() }
            NodeKind::Class => CharClass::try_from(value).is_ok(),
            _ => value == NO_VALUE,
        }
    }

    // Value and second: those of a span are its first code and one past its last.
    #[tactic(auto, unfolding(crate::specs::OneTree::values_fit))]
    fn values_fit(self, value: u32, second: u32) -> bool
        ensures { result ≡ values_fit (kind_number self) value second }
    {
        if self == NodeKind::Span {
            return value < second && second <= PAST_LAST_CODE;
        }
        self.value_fits(value) && second == NO_VALUE
    }
}

// The kind that has a number is an expression's; a number that is no kind's is no expression's.
pub fn is_expression(k: u32) -> bool
    ensures { result ≡ is_expression k }
{
    matches!(NodeKind::try_from(k), Ok(kind) if kind.is_expression())
}

// `CharClass`, `RepeatKind`, `SpecializeKind`, `ConflictMarkerKind` and `PrecKind` of node.rs. Where they have numbers, these are the
// values of their records.
#[derive(Clone, Copy, Debug, PartialEq, Eq)]
pub enum CharClass {
    AsciiLetter = 0,
    AsciiLowercase,
    AsciiUppercase,
    Digit,
    Whitespace,
    Eof,
}

#[derive(Clone, Copy, Debug, PartialEq, Eq)]
pub enum RepeatKind {
    Optional = 0,
    ZeroOrMore,
    OneOrMore,
}

#[derive(Clone, Copy, Debug, PartialEq, Eq)]
pub enum SpecializeKind {
    Extend = 1,
    Specialize,
}

#[derive(Clone, Copy, Debug, PartialEq, Eq)]
pub enum ConflictMarkerKind {
    Ambiguity,
    Precedence,
}

#[derive(Clone, Copy, Debug, PartialEq, Eq)]
pub enum PrecKind {
    Left = 1,
    Right,
    Cut,
}

// The kinds of a value: all else asks these four, and `flag_of`, what a value is.
impl TryFrom<u32> for CharClass {
    type Error = NotAKind;

    ghost try_from_gives = { IsClassOf };

    fn try_from(value: u32) -> Result<CharClass, NotAKind> {
        match value {
            0 => Ok(CharClass::AsciiLetter),
            1 => Ok(CharClass::AsciiLowercase),
            2 => Ok(CharClass::AsciiUppercase),
            3 => Ok(CharClass::Digit),
            4 => Ok(CharClass::Whitespace),
            5 => Ok(CharClass::Eof),
            _ => Err(NotAKind),
        }
    }
}

impl TryFrom<u32> for RepeatKind {
    type Error = NotAKind;

    ghost try_from_gives = { IsRepeatOf };

    fn try_from(value: u32) -> Result<RepeatKind, NotAKind> {
        match value {
            0 => Ok(RepeatKind::Optional),
            1 => Ok(RepeatKind::ZeroOrMore),
            2 => Ok(RepeatKind::OneOrMore),
            _ => Err(NotAKind),
        }
    }
}

impl TryFrom<u32> for SpecializeKind {
    type Error = NotAKind;

    ghost try_from_gives = { IsSpecializeOf };

    fn try_from(value: u32) -> Result<SpecializeKind, NotAKind> {
        match value {
            1 => Ok(SpecializeKind::Extend),
            2 => Ok(SpecializeKind::Specialize),
            _ => Err(NotAKind),
        }
    }
}

// The value 0 is an item's with none, and is no kind's.
impl TryFrom<u32> for PrecKind {
    type Error = NotAKind;

    ghost try_from_gives = { IsPrecOf };

    fn try_from(value: u32) -> Result<PrecKind, NotAKind> {
        match value {
            1 => Ok(PrecKind::Left),
            2 => Ok(PrecKind::Right),
            3 => Ok(PrecKind::Cut),
            _ => Err(NotAKind),
        }
    }
}

// The flag that a value is: of a grammar, that it detects delimiters; of a prop, its `@`; of a sequence, that it is explicitly empty; of
// a set, that it is inverted. No `TryFrom`: trait and type are both std's.
pub fn flag_of(value: u32) -> Option<bool>
    ensures { IsFlag value result }
{
    match value {
        0 => Some(false),
        1 => Some(true),
        _ => None,
    }
}

impl CharClass {
    // The class that a part of the source names. No `match`: one on the bytes leaves a goal for each byte at which a name may differ.
    pub fn from_name(name: &[u8]) -> Option<CharClass>
        ensures bytes { class_in result ≡ from_name name.now }
        ensures text { encode_all (codes name.now) ≡ name.now → class_in result ≡ from_name (codes name.now) }
    {
        if same_bytes(b"asciiLetter", name) {
            return Some(CharClass::AsciiLetter);
        }
        if same_bytes(b"asciiLowercase", name) {
            return Some(CharClass::AsciiLowercase);
        }
        if same_bytes(b"asciiUppercase", name) {
            return Some(CharClass::AsciiUppercase);
        }
        if same_bytes(b"digit", name) {
            return Some(CharClass::Digit);
        }
        if same_bytes(b"whitespace", name) {
            return Some(CharClass::Whitespace);
        }
        if same_bytes(b"eof", name) {
            return Some(CharClass::Eof);
        }
        None
    }

    // The spans of codes in the class: the first code of each, and one past its last.
    #[tactic(auto, unfolding(crate::specs::CharClasses::ranges))]
    pub fn ranges(self) -> &'static [(u32, u32)]
        ensures { map span_of result.now ≡ ranges (class_of self) }
    {
        match self {
            CharClass::AsciiLetter => &[(65, 91), (97, 123)],
            CharClass::AsciiLowercase => &[(97, 123)],
            CharClass::AsciiUppercase => &[(65, 91)],
            CharClass::Digit => &[(48, 58)],
            CharClass::Whitespace => &[
                (9, 14),
                (32, 33),
                (133, 134),
                (160, 161),
                (5760, 5761),
                (8192, 8203),
                (8232, 8234),
                (8239, 8240),
                (8287, 8288),
                (12288, 12289),
            ],
            CharClass::Eof => &[],
        }
    }

    // The value of a class's record.
    pub fn value(self) -> u32
        ensures { result ≡ class_value (class_of self) }
    {
        self as u32
    }
}

impl RepeatKind {
    // The value of a repeat's record.
    pub fn value(self) -> u32
        ensures { result ≡ repeat_value (repeat_of self) }
    {
        self as u32
    }
}

impl SpecializeKind {
    // The value of a specialize's record, and of an external specializer's.
    pub fn value(self) -> u32
        ensures { result ≡ specialize_value (specialize_of self) }
    {
        self as u32
    }
}

impl ConflictMarkerKind {
    // The kind of a marker's record.
    pub fn kind(self) -> NodeKind
        ensures { kind_number result ≡ marker_number (marker_of self) }
    {
        match self {
            ConflictMarkerKind::Ambiguity => NodeKind::AmbiguityMarker,
            ConflictMarkerKind::Precedence => NodeKind::PrecedenceMarker,
        }
    }
}

// The value of a precedence item's record.
pub fn prec_value(kind: Option<PrecKind>) -> u32
    ensures { result ≡ prec_value (prec_in kind) }
{
    kind.map_or(NO_VALUE, |kind| kind as u32)
}

// `same` of the definitions: it is proved here once, and not at each test, that `==` is it. `lexer::words::spells` is alike: neither crate
// stands on the other, and a crate below both would hold this `==` alone.
fn same_bytes(left: &[u8], right: &[u8]) -> bool
    ensures { result ≡ same left.now right.now }
{
    left == right
}

// The words of a record.
#[derive(Clone, Copy)]
pub struct Record {
    pub kind: NodeKind,
    pub start: u32,
    pub place: u32,
    pub size: u32,
    pub value: u32,
    pub second: u32,
    pub children: u32,
}

// A stored tree, or what may be one.
#[derive(Clone, Copy)]
pub struct Tree<'a> {
    pub records: &'a [u32],
    pub texts: &'a [u8],
}

// What the root of a tree has to be.
#[derive(Clone, Copy, Debug, PartialEq, Eq)]
pub enum Root {
    Expression,
    Grammar,
}

// Words and texts that are no tree.
#[derive(Clone, Copy, Debug, PartialEq, Eq)]
pub struct NotATree;

// A record is given by all records and its number, and not by a slice of its own words: its children stand before it, and are found by
// counting back from there. That it is there (`i < count_of`, `end ≤ count_of`) ties the two, so that no type of one of them says it.

// How many records the words have.
pub fn count(records: &[u32]) -> usize
    ensures { result ≡ count_of records.now }
{
    records.len() / WIDTH
}

// A word of a record.
pub fn word(records: &[u32], i: usize, k: usize) -> u32
    requires { (i < count_of records.now) × (k < width) }
    ensures { result ≡ word_at records.now i k }
{
    records[i * WIDTH + k]
}

// Where the last n branches begin that end before the record `end`; 0 where there are not so many. Each record passed takes its
// children with it. The 0 is no Option: this and `child` promise `first_place`, which is 0 there, so each caller would put it back.
pub fn first(records: &[u32], end: usize, n: usize) -> usize
    requires { end ≤ count_of records.now }
    ensures { result ≡ first_place records.now end n }
{
    let mut need = n;
    for i in (0..end).rev() {
        if need == 0 {
            return i + 1;
        }
        if i + 1 < need {
            return 0;
        }
        need = need - 1 + word(records, i, CHILDREN) as usize;
    }
    0
}

// Where the child k of the record i ends, its own record the last before that; children count from 0.
pub fn child(records: &[u32], i: usize, k: usize) -> usize
    requires { (i < count_of records.now) × (k < word_at records.now i 6) }
    ensures { result ≡ first_place records.now i (word_at records.now i 6 - (k + 1)) }
{
    first(records, i, word(records, i, CHILDREN) as usize - (k + 1))
}

// The number of the kind of the last branch that ends before the record `end`, or 0, which is no kind's, where none does.
#[tactic(auto, unfolding(crate::specs::Promise::kind_before))]
pub fn number_before(records: &[u32], end: usize) -> u32
    requires { end ≤ count_of records.now }
    ensures { result ≡ kind_before records.now end }
{
    if end == 0 {
        return 0;
    }
    word(records, end - 1, KIND)
}

// The kind of the last branch that ends before the record `end`, if one does and its number is a kind's.
pub fn kind_before(records: &[u32], end: usize) -> Option<NodeKind>
    requires { end ≤ count_of records.now }
    ensures { IsKind (kind_before records.now end) result }
{
    NodeKind::try_from(number_before(records, end)).ok()
}

// The kinds that the children of a group may have.
#[derive(Clone, Copy, Debug, PartialEq, Eq)]
enum Kinds {
    Of(NodeKind),
    Expressions,
    Slots,
    References,
    Parts,
}

// A group of children of some kinds: as many as there are; just one; at most one.
#[derive(Clone, Copy, Debug, PartialEq, Eq)]
enum Group {
    Each(Kinds),
    One(Kinds),
    AtMostOne(Kinds),
}

impl Kinds {
    fn contains(self, kind: NodeKind) -> bool
        ensures { result ≡ among (kinds_of self) (kind_number kind) }
    {
        match self {
            Kinds::Of(only) => kind == only,
            Kinds::Expressions => kind.is_expression(),
            Kinds::Slots => {
                kind == NodeKind::AmbiguityMarker
                    || kind == NodeKind::PrecedenceMarker
                    || kind.is_expression()
            }
            Kinds::References => kind == NodeKind::Name || kind == NodeKind::Literal,
            Kinds::Parts => kind == NodeKind::PartText || kind == NodeKind::PartName,
        }
    }
}

// The groups of children of a record, last first.
#[tactic(auto, unfolding(crate::specs::OneTree::groups_of))]
fn groups(kind: NodeKind, value: u32) -> &'static [Group]
    ensures { map group_of result.now ≡ reverse (groups_of (kind_number kind) value) }
{
    use Group::{AtMostOne, Each, One};
    use Kinds::{Expressions, Of, Parts, References, Slots};
    match kind {
        NodeKind::Grammar => &[
            Each(Of(NodeKind::ExternalProp)),
            Each(Of(NodeKind::Dialect)),
            Each(Of(NodeKind::ScopedSkip)),
            Each(Of(NodeKind::MainSkip)),
            Each(Of(NodeKind::Precedences)),
            Each(Of(NodeKind::PropSource)),
            Each(Of(NodeKind::ExternalSpecializer)),
            Each(Of(NodeKind::ExternalTokens)),
            Each(Of(NodeKind::Context)),
            Each(Of(NodeKind::LocalTokens)),
            Each(Of(NodeKind::Tokens)),
            Each(Of(NodeKind::Rule)),
            Each(Of(NodeKind::TopRule)),
        ],
        NodeKind::TopRule | NodeKind::Rule => &[
            One(Expressions),
            Each(Of(NodeKind::Param)),
            Each(Of(NodeKind::Prop)),
        ],
        NodeKind::Prop => &[Each(Parts)],
        NodeKind::Tokens => &[
            Each(Of(NodeKind::TokenLiteral)),
            Each(Of(NodeKind::Rule)),
            Each(Of(NodeKind::TokenConflict)),
            Each(Of(NodeKind::TokenPrecedence)),
        ],
        NodeKind::TokenPrecedence => &[Each(References)],
        NodeKind::TokenConflict => &[One(References), One(References)],
        NodeKind::TokenLiteral | NodeKind::NamedNode => { &[Each(Of(NodeKind::Prop))] }
        NodeKind::LocalTokens => &[
            AtMostOne(Of(NodeKind::NamedNode)),
            Each(Of(NodeKind::Rule)),
            Each(Of(NodeKind::TokenPrecedence)),
        ],
        NodeKind::Context | NodeKind::PropSource => &[One(Of(NodeKind::Source))],
        NodeKind::ExternalTokens => &[
            Each(Of(NodeKind::ConflictName)),
            Each(Of(NodeKind::NamedNode)),
            One(Of(NodeKind::Source)),
        ],
        NodeKind::ExternalSpecializer => &[
            Each(Of(NodeKind::NamedNode)),
            One(Of(NodeKind::Source)),
            One(Expressions),
        ],
        NodeKind::Precedences => &[Each(Of(NodeKind::PrecedenceItem))],
        NodeKind::MainSkip | NodeKind::Repeat => &[One(Expressions)],
        NodeKind::ScopedSkip => &[
            Each(Of(NodeKind::Rule)),
            Each(Of(NodeKind::TopRule)),
            One(Expressions),
        ],
        NodeKind::ExternalProp => &[One(Of(NodeKind::Source)), One(Of(NodeKind::ExternalName))],
        NodeKind::Name | NodeKind::Choice => &[Each(Expressions)],
        NodeKind::Specialize => &[One(Expressions), One(Expressions), Each(Of(NodeKind::Prop))],
        NodeKind::InlineRule => &[One(Expressions), Each(Of(NodeKind::Prop))],
        NodeKind::Sequence if flag_of(value) == Some(false) => &[Each(Slots)],
        NodeKind::Set => &[Each(Of(NodeKind::Span))],
        _ => &[],
    }
}

// Branches that follow one another, the last `left` of those that end before the record `end`.
#[derive(Clone, Copy)]
struct Branches<'a> {
    records: &'a [u32],
    end: usize,
    left: usize,
    ghost inside: { end ≤ count_of records.now },
}

// Inlined, since each record's children are passed here.
impl Branches<'_> {
    // There is one, and the last of them is of one of the kinds.
    #[inline(always)]
    fn end_in(self, kinds: Kinds) -> bool
        ensures { result ≡ begins (kinds_of kinds) (kinds_back self.entry.records.now self.entry.end self.entry.left) }
    {
        self.left != 0
            && matches!(kind_before(self.records, self.end), Some(kind) if kinds.contains(kind))
    }

    // Those before the last. Where none is left nobody asks where they end, and the count back is spared.
    #[inline(always)]
    fn before(self) -> Self
        requires { 0 < self.left }
        ensures records { result.records.now ≡ self.entry.records.now }
        ensures left { result.left + 1 ≡ self.entry.left }
        ensures kinds { kinds_back result.records.now result.end result.left ≡ drop 1 (kinds_back self.entry.records.now self.entry.end self.entry.left) }
    {
        let left = self.left - 1;
        let end = if left == 0 {
            self.end
        } else {
            first(self.records, self.end, 1)
        };
        Branches {
            records: self.records,
            end,
            left,
        }
    }

    // Those before the last ones that are of the kinds.
    #[inline(always)]
    fn without(self, kinds: Kinds) -> Self
        ensures kinds { kinds_back result.records.now result.end result.left ≡ without (kinds_of kinds) (kinds_back self.entry.records.now self.entry.end self.entry.left) }
        ensures records { result.records.now ≡ self.entry.records.now }
    {
        let mut branches = self;
        while branches.end_in(kinds) {
            branches = branches.before();
        }
        branches
    }

    // They may be the children of a record of a kind and value.
    fn fit(self, kind: NodeKind, value: u32) -> bool
        ensures { result ≡ children_fit (kind_number kind) value (kinds_back self.entry.records.now self.entry.end self.entry.left) }
    {
        let mut branches = self;
        for group in groups(kind, value) {
            match *group {
                Group::Each(kinds) => branches = branches.without(kinds),
                Group::One(kinds) => {
                    if !branches.end_in(kinds) {
                        return false;
                    }
                    branches = branches.before();
                }
                Group::AtMostOne(kinds) => {
                    if branches.end_in(kinds) {
                        branches = branches.before();
                    }
                }
            }
        }
        branches.left == 0
    }
}

// The record i of the words, if its number is a kind's.
fn read(records: &[u32], i: usize) -> Option<Record>
    requires { i < count_of records.now }
    ensures { IsRecord (record_at records.now i) result }
{
    let kind = NodeKind::try_from(word(records, i, KIND)).ok()?;
    Some(Record {
        kind,
        start: word(records, i, START),
        place: word(records, i, PLACE),
        size: word(records, i, SIZE),
        value: word(records, i, VALUE),
        second: word(records, i, SECOND),
        children: word(records, i, CHILDREN),
    })
}

impl Record {
    // A record i over its children.
    #[tactic(auto, unfolding(crate::specs::OneTree::record_fits))]
    fn fits(self, records: &[u32], i: usize, at: usize, room: usize) -> bool
        requires { (i < count_of records.now) × (at ≤ room) }
        ensures { result ≡ record_fits room at (record_of self) (kinds_back records.now i self.children) }
    {
        let branches = Branches {
            records,
            end: i,
            left: self.children as usize,
        };
        self.kind.values_fit(self.value, self.second)
            && self.text_fits(at, room)
            && branches.fit(self.kind, self.value)
    }

    // The text of a record, where the texts before it end at `at`, in texts of `room` bytes.
    #[tactic(auto, unfolding(crate::specs::OneTree::text_fits))]
    fn text_fits(self, at: usize, room: usize) -> bool
        requires { at ≤ room }
        ensures { result ≡ text_fits room at (record_of self) }
    {
        let size = self.size as usize;
        if size == 0 {
            return self.place == 0;
        }
        self.kind.has_text() && self.place as usize == at && size <= room - at
    }
}

impl Root {
    fn admits(self, kind: NodeKind) -> bool
        ensures { result ≡ root_of self (kind_number kind) }
    {
        match self {
            Root::Expression => kind.is_expression(),
            Root::Grammar => kind == NodeKind::Grammar,
        }
    }
}

impl<'a> Tree<'a> {
    // The words and texts are one tree, with the root that is asked for. Each record is visited once, and passed once more for each
    // branch it lies in that has a sibling before it: at most records times levels. Stacked repeats have no siblings, so they take one
    // visit each.
    pub fn is_tree(self, root: Root) -> bool
        ensures { result ≡ is_some (build (root_of root) self.entry.records.now self.entry.texts.now) }
    {
        let n = count(self.records);
        if n * WIDTH != self.records.len() {
            return false;
        }
        let mut depth = 0;
        let mut at = 0;
        for i in 0..n {
            let Some(record) = read(self.records, i) else {
                return false;
            };
            let children = record.children as usize;
            if depth < children {
                return false;
            }
            if !record.fits(self.records, i, at, self.texts.len()) {
                return false;
            }
            depth = depth - children + 1;
            at += record.size as usize;
        }
        let Some(kind) = kind_before(self.records, n) else {
            return false;
        };
        depth == 1 && root.admits(kind)
    }

    // The text of a record.
    pub fn text(self, i: usize) -> &'a [u8]
        requires { Inside self.records.now self.texts.now i }
        ensures { result.now ≡ (node_at self.entry.records.now self.entry.texts.now i).row.text }
    {
        let place = word(self.records, i, PLACE) as usize;
        let size = word(self.records, i, SIZE) as usize;
        &self.texts[place..place + size]
    }

    // The records i of two trees are the same: all but starts, places of texts, and a prop's value, which is its `@`.
    #[tactic(auto, unfolding(crate::specs::Promise::same_node))]
    fn same_record(self, other: Tree, i: usize) -> bool
        requires left { Inside self.records.now self.texts.now i }
        requires right { Inside other.records.now other.texts.now i }
        ensures { result ≡ same_node (node_at self.entry.records.now self.entry.texts.now i) (node_at other.entry.records.now other.entry.texts.now i) }
    {
        let kind = word(self.records, i, KIND);
        kind == word(other.records, i, KIND)
            && (kind == NodeKind::Prop.number()
                || word(self.records, i, VALUE) == word(other.records, i, VALUE))
            && word(self.records, i, SECOND) == word(other.records, i, SECOND)
            && word(self.records, i, CHILDREN) == word(other.records, i, CHILDREN)
            && same_bytes(self.text(i), other.text(i))
    }

    // `Expression::structurally_eq` on stored trees: record by record, once each is found to be a tree.
    pub fn structurally_eq(self, other: Tree) -> Result<bool, NotATree>
        ensures { result ≡ comparison (build is_expression self.entry.records.now self.entry.texts.now) (build is_expression other.entry.records.now other.entry.texts.now) }
    {
        if !self.is_tree(Root::Expression) {
            return Err(NotATree);
        }
        if !other.is_tree(Root::Expression) {
            return Err(NotATree);
        }
        if self.records.len() != other.records.len() {
            return Ok(false);
        }
        for i in 0..count(self.records) {
            if !self.same_record(other, i) {
                return Ok(false);
            }
        }
        Ok(true)
    }
}

// Stores a record at a place where it fits there, and says how many words it takes in any case. The whole and a place, here, in `put_words`
// and in `put_text`, and not the rest from there: what is stored is promised of the whole (`written`), as `parser` promises it of its store,
// and the place may lie past the end.
pub fn put(records: &mut [u32], at: usize, r: Record) -> usize
    ensures { (result ≡ width) × (records.new ≡ written records.old at (words_of (record_of r))) }
{
    put_words(
        records,
        at,
        [
            r.kind.number(),
            r.start,
            r.place,
            r.size,
            r.value,
            r.second,
            r.children,
        ],
    )
}

// The same of any seven words: the first may be the number of no kind. Inlined, so that the words go straight to their place.
#[inline(always)]
pub fn put_words(records: &mut [u32], at: usize, words: [u32; WIDTH]) -> usize
    ensures { (result ≡ width) × (records.new ≡ written records.old at words) }
{
    if at <= records.len() && WIDTH <= records.len() - at {
        records[at..at + WIDTH].copy_from_slice(&words);
    }
    WIDTH
}

// Stores a text at a place where it fits there, and says how many bytes it takes in any case. Not one function with `put`: `written` is
// of numbers and not of any type. Byte by byte: `copy_from_slice` of some bytes, not known how many, calls `memmove`, which the archives for C
// would need from outside, and most texts are a few bytes, for which the call takes longer.
pub fn put_text(texts: &mut [u8], at: usize, text: &[u8]) -> usize
    ensures { (result ≡ length text.now) × (texts.new ≡ written texts.old at text.now) }
{
    if texts.len() < at {
        return text.len();
    }
    if texts.len() - at < text.len() {
        return text.len();
    }
    for i in 0..text.len() {
        texts[at + i] = text[i];
    }
    text.len()
}
