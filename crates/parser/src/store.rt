// Storing nodes. A record or a text that does not fit is counted and not stored, so a run over empty parts measures.
// Words and a place in them stay two parameters: the place may lie past the end of the words, where no slice begins, and `tree::put` takes
// the two likewise. Kind, start and children of a node stay three: a struct of them would be put together at each call and taken apart here.
ghost use Rattle.std.specs.Prelude.{◌≡◌, [], ◌∷◌, ◌+◌, ◌*◌, ◌≤◌, ◌<◌, ◌^◌, length, drop};
ghost use Rattle.std.proofs.Math.Option.{none};
ghost use Rattle.characters.specs.Utf8.{codes, encode_all};
ghost use Rattle.characters.specs.Promise.{written};
ghost use Rattle.lexer.specs.Escapes.{decode_string};
ghost use Rattle.lexer.specs.Promise.{Checks, spans_in, words_of};
ghost use Rattle.lexer.specs.Sets.{spans, fault, sorted};
ghost use Rattle.tree.specs.Promise.{kind_number};
ghost use Rattle.tree.specs.Records.{place_of};
ghost use Rattle.parser.specs.Storing.{lent, lent_of, nothing_lent, Kept, Stores, node, span_words, StoresSet};

use error::Cause;
use tree::{NodeKind, Record};

// How many words a record has.
const WIDTH: usize = 7;

// The words and bytes that are lent for a tree, and how many of each are taken. A function that is passed a `&mut Store` could put other
// slices in it, and no type of a field forbids that: so `Kept`, that they are the same slices, as long as they were, is a clause.
// A node may have any number for its kind: what takes a number does the work, and what takes a `NodeKind` is inlined, so that it is the
// same call.
#[derive(Drop)]
pub struct Store<'a> {
    pub records: &'a mut [u32],
    pub n: usize,
    pub texts: &'a mut [u8],
    pub x: usize,
}

impl<'a> Store<'a> {
    // Over nothing: all is counted, and nothing stored.
    pub fn measuring() -> Store<'a>
        ensures { lent_of result ≡ lent 0 [] 0 [] }
    {
        Store {
            records: &mut [],
            n: 0,
            texts: &mut [],
            x: 0,
        }
    }

    // Nothing is lent, so nothing but the count can differ.
    pub fn is_measuring(&self) -> bool
        ensures { result ≡ nothing_lent self.now }
    {
        self.records.is_empty() && self.texts.is_empty()
    }

    // A record behind those that are taken, whose text has begun behind the texts that are taken.
    fn put_record(&mut self, kind: u32, start: usize, size: usize, value: u32, children: usize)
        requires { (self.old.n + 7 < 2 ^ 64) × (start < 2 ^ 32) × (self.old.x + size < 2 ^ 32) × (children < 2 ^ 32) }
        ensures kept { Kept self.old self.new }
        ensures taken { (self.new.n ≡ self.old.n + 7) × (self.new.x ≡ self.old.x + size) × (self.new.texts.now ≡ self.old.texts.now) }
        ensures words { self.new.records.now ≡ written self.old.records.now self.old.n
            (kind ∷ start ∷ place_of self.old.x size ∷ size ∷ value ∷ 0 ∷ children ∷ []) }
    {
        let words = [
            kind,
            start as u32,
            place(self.x, size) as u32,
            size as u32,
            value,
            0,
            children as u32,
        ];
        self.n += tree::put_words(self.records, self.n, words);
        self.x += size;
    }

    // A node without a text. It is no call of `put_record` with size 0, which asks a bound of `x`: this asks none.
    #[inline(always)]
    pub fn put_plain(&mut self, kind: NodeKind, start: usize, value: u32, children: usize)
        requires { (self.old.n + 7 < 2 ^ 64) × (start < 2 ^ 32) × (children < 2 ^ 32) }
        ensures kept { Kept self.old self.new }
        ensures stores { Stores (node (kind_number kind) start [] value 0 children ∷ []) (lent_of self.old) (lent_of self.new) }
        ensures bytes { (self.new.x ≡ self.old.x) × (self.new.texts.now ≡ self.old.texts.now) }
    {
        self.put_plain_numbered(kind.number(), start, value, children);
    }

    // The same with the kind by its number.
    pub fn put_plain_numbered(&mut self, kind: u32, start: usize, value: u32, children: usize)
        requires { (self.old.n + 7 < 2 ^ 64) × (start < 2 ^ 32) × (children < 2 ^ 32) }
        ensures kept { Kept self.old self.new }
        ensures stores { Stores (node kind start [] value 0 children ∷ []) (lent_of self.old) (lent_of self.new) }
        ensures bytes { (self.new.x ≡ self.old.x) × (self.new.texts.now ≡ self.old.texts.now) }
    {
        let words = [kind, start as u32, 0, 0, value, 0, children as u32];
        self.n += tree::put_words(self.records, self.n, words);
    }

    // A node with these bytes for its text.
    #[inline(always)]
    pub fn put_named(
        &mut self,
        kind: NodeKind,
        start: usize,
        text: &[u8],
        value: u32,
        children: usize,
    )
        requires { (self.old.n + 7 < 2 ^ 64) × (start < 2 ^ 32) × (children < 2 ^ 32) × (self.old.x + length text.now < 2 ^ 32) }
        ensures kept { Kept self.old self.new }
        ensures stores { Stores (node (kind_number kind) start text.now value 0 children ∷ []) (lent_of self.old) (lent_of self.new) }
    {
        self.put_named_numbered(kind.number(), start, text, value, children);
    }

    // The same with the kind by its number.
    pub fn put_named_numbered(
        &mut self,
        kind: u32,
        start: usize,
        text: &[u8],
        value: u32,
        children: usize,
    )
        requires { (self.old.n + 7 < 2 ^ 64) × (start < 2 ^ 32) × (children < 2 ^ 32) × (self.old.x + length text.now < 2 ^ 32) }
        ensures kept { Kept self.old self.new }
        ensures stores { Stores (node kind start text.now value 0 children ∷ []) (lent_of self.old) (lent_of self.new) }
    {
        let size = tree::put_text(self.texts, self.x, text);
        self.put_record(kind, start, size, value, children);
    }

    // The value of a string, whose text stands between its quotes, to the bytes behind those taken: how many they are.
    fn put_value(&mut self, body: &[u8]) -> usize
        requires { self.old.x + length body.now < 2 ^ 32 }
        ensures kept { Kept self.old self.new }
        ensures taken { (self.new.n ≡ self.old.n) × (self.new.x ≡ self.old.x) × (self.new.records.now ≡ self.old.records.now) }
        ensures size { (result ≡ length (encode_all (decode_string (codes body.now)))) × (result ≤ length body.now) }
        ensures len { length self.new.texts.now ≡ length self.old.texts.now }
        ensures value { (self.old.x + result ≤ length self.old.texts.now → self.new.texts.now ≡ written self.old.texts.now self.old.x (encode_all (decode_string (codes body.now)))) }
    {
        if self.texts.len() < self.x {
            return lexer::escapes::decode_string(body, &mut []);
        }
        lexer::escapes::decode_string(body, &mut self.texts[self.x..])
    }

    // A node with the value of a string for its text; `children` counts nodes, and no bytes of `body`.
    #[inline(always)]
    pub fn put_string(&mut self, kind: NodeKind, start: usize, body: &[u8], children: usize)
        requires { (self.old.n + 7 < 2 ^ 64) × (start < 2 ^ 32) × (children < 2 ^ 32) × (self.old.x + length body.now < 2 ^ 32) }
        ensures kept { Kept self.old self.new }
        ensures stores { Stores (node (kind_number kind) start (encode_all (decode_string (codes body.now))) 0 0 children ∷ []) (lent_of self.old) (lent_of self.new) }
        ensures few { self.new.x ≤ self.old.x + length body.now }
    {
        self.put_string_numbered(kind.number(), start, body, children);
    }

    // The same with the kind by its number.
    pub fn put_string_numbered(&mut self, kind: u32, start: usize, body: &[u8], children: usize)
        requires { (self.old.n + 7 < 2 ^ 64) × (start < 2 ^ 32) × (children < 2 ^ 32) × (self.old.x + length body.now < 2 ^ 32) }
        ensures kept { Kept self.old self.new }
        ensures stores { Stores (node kind start (encode_all (decode_string (codes body.now))) 0 0 children ∷ []) (lent_of self.old) (lent_of self.new) }
        ensures few { self.new.x ≤ self.old.x + length body.now }
    {
        let size = self.put_value(body);
        self.put_record(kind, start, size, 0, children);
    }

    // The spans of a set that starts at a place, a node each, in ascending order: how many there are, or what stops the set.
    pub fn put_spans(&mut self, start: usize, body: &[u8]) -> Result<usize, Cause>
        requires { (self.old.n + 7 * length body.now < 2 ^ 64) × (start < 2 ^ 32) }
        ensures kept { Kept self.old self.new }
        ensures checks { Checks (spans (codes body.now)) result }
        ensures stores { StoresSet body.now start (lent_of self.old) (lent_of self.new) result }
        ensures bytes { (self.new.x ≡ self.old.x) × (self.new.texts.now ≡ self.old.texts.now) }
    {
        let count = read_spans(body, self.records, self.n)?;
        spread(self.records, self.n, start as u32, count);
        self.n += WIDTH * count;
        Ok(count)
    }
}

// The place of a text of a length: an empty one has place 0.
fn place(x: usize, size: usize) -> usize
    ensures { result ≡ place_of x size }
{
    if size == 0 {
        return 0;
    }
    x
}

// The spans in ascending order behind the first n words, two words each. The rest of a slice or nothing is taken by an `if` here and in
// `put_value`: of `get_mut(n..)` no clause says what the slice holds once the rest is written.
fn read_spans(body: &[u8], records: &mut [u32], n: usize) -> Result<usize, Cause>
    ensures checks { Checks (spans (codes body.now)) result }
    ensures words { fault (spans (codes body.now)) ≡ none → records.new ≡ written records.old n (words_of (sorted (spans (codes body.now)))) }
    ensures len { length records.new ≡ length records.old }
{
    if records.len() < n {
        return lexer::sets::parse_set_ranges(body, &mut []);
    }
    lexer::sets::parse_set_ranges(body, &mut records[n..])
}

// Spans of two words each, behind the first n words, to records in their place, the last first, where these fit. `i` counts since it gives
// both the place that is read and the place that is written, in the same words.
fn spread(records: &mut [u32], n: usize, start: u32, count: usize)
    requires { n + 7 * count < 2 ^ 64 }
    ensures { records.new ≡ written records.old n (span_words start (spans_in count (drop n records.old))) }
{
    if records.len() < n + WIDTH * count {
        return;
    }
    for i in (0..count).rev() {
        let first = records[n + 2 * i];
        let past = records[n + 2 * i + 1];
        put_span(records, n + WIDTH * i, start, first, past);
    }
}

// The record of a span.
fn put_span(records: &mut [u32], at: usize, start: u32, first: u32, past: u32)
    ensures { records.new ≡ written records.old at (38 ∷ start ∷ 0 ∷ 0 ∷ first ∷ past ∷ 0 ∷ []) }
{
    let record = Record {
        kind: NodeKind::Span,
        start,
        place: 0,
        size: 0,
        value: first,
        second: past,
        children: 0,
    };
    let _size = tree::put(records, at, record);
}
