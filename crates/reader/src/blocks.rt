// Members of blocks, stored in groups: `@tokens`, `@local tokens`, external token sets, scoped skips. The head of
// directives.rt says why text, token and store are three parameters; `block`, `free` and `places` differ from call to call too.
ghost use Rattle.std.specs.Prelude.{◌+◌, ◌<◌, ◌^◌, ◌≡◌};
ghost use Rattle.tokens.specs.Promise.{stream, LiesIn};
ghost use Rattle.parser.specs.Storing.{lent_of, Kept};
ghost use Rattle.parser.specs.Steps.{between_by};
ghost use Rattle.parser.specs.Steps.{Ready};
ghost use Rattle.notation.specs.Declarations.{block as block_d};
ghost use Rattle.reader.specs.Groups.{groups_of, GathersTo};
ghost use Rattle.reader.specs.Places.{place_in, words_in, bytes_in, sum, lined_up, Blank, Begins};
ghost use Rattle.reader.specs.Blocks.{kind_of, branches_of, kinds_of, comma_of, member_of, members_of, JoinsTo, block_count, SettlesTo, SpreadsTo, FirstTo, Roomy, one_of};
ghost use Rattle.reader.specs.Ahead.{member_ahead};
ghost use Rattle.reader.specs.declared.blocks.Block.TheVariants.{Tokens, LocalTokens, ExternalTokens, Skip};

use declarations::{blocks, rules};
use error::Stop;
use lexer::Token;
use parser::props;
use parser::props::{Comma, Opened};
use parser::store::Store;
use tree::NodeKind;

// A block whose members are stored in groups.
#[derive(Clone, Copy, Debug, PartialEq, Eq)]
pub enum Block {
    Tokens,
    LocalTokens,
    ExternalTokens,
    Specializer,
    Skip,
}

// How many groups are kept for a block: as many as `@tokens` has, which has the most.
pub const GROUPS: usize = 4;

// A member is stored: the token after it, how many branches it has, and their kind.
#[derive(Clone, Copy, Debug, PartialEq, Eq)]
pub struct Joined {
    pub token: Token,
    pub count: usize,
    pub kind: NodeKind,
}

// What was read is one member of a kind.
fn one(token: Token, kind: NodeKind) -> Joined
    ensures { result ≡ one_of kind token }
{
    Joined {
        token,
        count: 1,
        kind,
    }
}

fn token_member(source: &[u8], token: Token, free: bool, store: &mut Store) -> Result<Joined, Stop>
    requires { Ready source.now token (lent_of store.old) }
    ensures kept { Kept store.old store.new }
    ensures joins { JoinsTo Tokens free source.now token (lent_of store.old) (lent_of store.new) result }
{
    if let Some(body) = tokens::string(token) {
        let after = rules::parse_literal(source, token, body, store)?;
        return Ok(one(after, NodeKind::TokenLiteral));
    }
    if tokens::says(source, tokens::at(token), b"precedence") {
        let after = blocks::parse_token_precedence(source, token, store)?;
        return Ok(one(after, NodeKind::TokenPrecedence));
    }
    if tokens::says(source, tokens::at(token), b"conflict") {
        let after = blocks::parse_token_conflict(source, token, store)?;
        return Ok(one(after, NodeKind::TokenConflict));
    }
    let after = rules::parse_rule(source, token, NodeKind::Rule, store)?;
    Ok(one(after, NodeKind::Rule))
}

// A second `@else` is taken, and a rule read.
fn local_member(source: &[u8], token: Token, free: bool, store: &mut Store) -> Result<Joined, Stop>
    requires { Ready source.now token (lent_of store.old) }
    ensures kept { Kept store.old store.new }
    ensures joins { JoinsTo LocalTokens free source.now token (lent_of store.old) (lent_of store.new) result }
{
    if tokens::says(source, tokens::at(token), b"precedence") {
        let after = blocks::parse_token_precedence(source, token, store)?;
        return Ok(one(after, NodeKind::TokenPrecedence));
    }
    let Some(fallback) = tokens::eat_at(source, token, b"else")? else {
        let after = rules::parse_rule(source, token, NodeKind::Rule, store)?;
        return Ok(one(after, NodeKind::Rule));
    };
    if free {
        let after = rules::parse_named_node(source, fallback, store)?;
        return Ok(one(after, NodeKind::NamedNode));
    }
    let after = rules::parse_rule(source, fallback, NodeKind::Rule, store)?;
    Ok(one(after, NodeKind::Rule))
}

// A list of conflicts, or a named node.
fn external_member(
    source: &[u8],
    token: Token,
    free: bool,
    store: &mut Store,
) -> Result<Joined, Stop>
    requires { Ready source.now token (lent_of store.old) }
    ensures kept { Kept store.old store.new }
    ensures joins { JoinsTo ExternalTokens free source.now token (lent_of store.old) (lent_of store.new) result }
{
    let Some(conflicts) = tokens::eat_at(source, token, b"conflict")? else {
        let after = rules::parse_named_node(source, token, store)?;
        return Ok(one(after, NodeKind::NamedNode));
    };
    let (after, count) = rules::parse_names(source, conflicts, NodeKind::ConflictName, store)?;
    Ok(Joined {
        token: after,
        count,
        kind: NodeKind::ConflictName,
    })
}

fn skip_member(source: &[u8], token: Token, free: bool, store: &mut Store) -> Result<Joined, Stop>
    requires { Ready source.now token (lent_of store.old) }
    ensures kept { Kept store.old store.new }
    ensures joins { JoinsTo Skip free source.now token (lent_of store.old) (lent_of store.new) result }
{
    let Some(top) = tokens::eat_at(source, token, b"top")? else {
        let after = rules::parse_rule(source, token, NodeKind::Rule, store)?;
        return Ok(one(after, NodeKind::Rule));
    };
    let after = rules::parse_rule(source, top, NodeKind::TopRule, store)?;
    Ok(one(after, NodeKind::TopRule))
}

// A member of a block. `free`: an `@else` still makes a fallback. The match is the plain form: a closure for each block would be chosen by
// the same match, and its contract would have to say which block it is of.
fn member(
    source: &[u8],
    block: Block,
    token: Token,
    free: bool,
    store: &mut Store,
) -> Result<Joined, Stop>
    requires { Ready source.now token (lent_of store.old) }
    ensures kept { Kept store.old store.new }
    ensures joins { JoinsTo block free source.now token (lent_of store.old) (lent_of store.new) result }
{
    match block {
        Block::Tokens => token_member(source, token, free, store),
        Block::LocalTokens => local_member(source, token, free, store),
        Block::ExternalTokens => external_member(source, token, free, store),
        Block::Specializer => {
            let after = rules::parse_named_node(source, token, store)?;
            Ok(one(after, NodeKind::NamedNode))
        }
        Block::Skip => skip_member(source, token, free, store),
    }
}

// What stands between two members. A table, no conversion: several blocks have the same comma.
fn comma(block: Block) -> Comma
    ensures { result ≡ comma_of block }
{
    match block {
        Block::Tokens | Block::LocalTokens | Block::Skip => Comma::No,
        Block::ExternalTokens | Block::Specializer => Comma::May,
    }
}

// The group of a member of a block, from its first tokens: a place in the list of the block's groups (`kinds_of`). It asks of the first tokens
// what the functions above ask, before anything is stored. `free`: an `@else` still makes a fallback.
fn group_ahead(source: &[u8], block: Block, token: Token, free: bool) -> usize
    requires { LiesIn source.now 0 token }
    ensures { result ≡ place_in (kinds_of block) (member_ahead block free (stream source.now token)) }
{
    let at = tokens::at(token);
    match block {
        Block::Tokens => {
            if tokens::string(token).is_some() {
                return 3;
            }
            if tokens::says(source, at, b"precedence") {
                return 0;
            }
            if tokens::says(source, at, b"conflict") {
                return 1;
            }
            2
        }
        Block::LocalTokens => {
            if tokens::says(source, at, b"precedence") {
                return 0;
            }
            if free && tokens::says(source, at, b"else") {
                return 2;
            }
            1
        }
        Block::ExternalTokens => tokens::says(source, at, b"conflict") as usize,
        Block::Specializer => 0,
        Block::Skip => {
            if tokens::says(source, at, b"top") {
                return 0;
            }
            1
        }
    }
}

// So many words and bytes: where a group goes on, or how much of each it, or a whole tree, takes. Counts, where the fields of `lexer::Part`
// are places in a text. A store has the two as its fields `n` and `x`, which its contracts name.
#[derive(Clone, Copy, Debug, PartialEq, Eq)]
pub struct Extent {
    pub words: usize,
    pub bytes: usize,
}

impl Extent {
    pub const NONE: Extent = Extent { words: 0, bytes: 0 };
}

// A member, stored where its group goes on, and how much it takes; the place of the group moves on. Like `declaration_placed` but for what is
// called and how the group is found: handed in as a function, its contract would have to be that of either.
fn member_placed(
    source: &[u8],
    block: Block,
    token: Token,
    free: bool,
    places: &mut [Extent],
    store: &mut Store,
) -> Result<(Joined, Extent), Stop>
    requires { Begins block_count 0x30000000 source.now token (words_in places.old) (bytes_in places.old) }
    ensures kept { Kept store.old store.new }
    ensures settles { SettlesTo block free source.now token places.old places.new store.old store.new result }
{
    let p = group_ahead(source, block, token, free);
    let Extent { words, bytes } = places[p];
    store.n = words;
    store.x = bytes;
    let joined = member(source, block, token, free, store)?;
    places[p] = Extent {
        words: store.n,
        bytes: store.x,
    };
    Ok((
        joined,
        Extent {
            words: store.n - words,
            bytes: store.x - bytes,
        },
    ))
}

// The members of a block are stored: the token behind its brace, how much they take, and how many branches they have.
#[derive(Clone, Copy, Debug, PartialEq, Eq)]
pub struct Members {
    pub token: Token,
    pub size: Extent,
    pub count: usize,
}

// The members of a block up to its brace, each stored where its group goes on.
fn members_pass(
    source: &[u8],
    block: Block,
    token: Token,
    places: &mut [Extent],
    store: &mut Store,
) -> Result<Members, Stop>
    requires { Begins block_count 0x28000000 source.now token (words_in places.old) (bytes_in places.old) }
    ensures kept { Kept store.old store.new }
    ensures spreads { SpreadsTo block source.now token places.old places.new store.old store.new result }
{
    let mut t = token;
    let mut words = 0;
    let mut bytes = 0;
    let mut turns = 0;
    let mut count = 0;
    let mut free = true;
    loop {
        match props::opening(source, t, '}' as u32, comma(block), turns)? {
            Opened::Closed(after) => {
                return Ok(Members {
                    token: after,
                    size: Extent { words, bytes },
                    count,
                });
            }
            Opened::Item(item) => {
                let (joined, size) = member_placed(source, block, item, free, places, store)?;
                t = joined.token;
                words += size.words;
                bytes += size.bytes;
                turns += 1;
                count += joined.count;
                free = free && joined.kind != NodeKind::NamedNode;
            }
        }
    }
}

// Sizes become places: each begins where the one before it ends, and the first at `from`.
pub fn line_up(sizes: &mut [Extent], from: Extent)
    requires { (from.words + sum (words_in sizes.old) < 2 ^ 64) × (from.bytes + sum (bytes_in sizes.old) < 2 ^ 64) }
    ensures { (words_in sizes.new ≡ lined_up from.words (words_in sizes.old)) × (bytes_in sizes.new ≡ lined_up from.bytes (bytes_in sizes.old)) }
{
    let Extent {
        mut words,
        mut bytes,
    } = from;
    for size in sizes.iter_mut() {
        let place = Extent { words, bytes };
        words += size.words;
        bytes += size.bytes;
        *size = place;
    }
}

// The members of a block, with room for the sizes of its groups. A first pass, over nothing, measures each group; a second stores each member in its
// group. Where nothing is lent the first is enough. The size of the first group is left in its place.
pub fn parse_members(
    source: &[u8],
    block: Block,
    token: Token,
    groups: &mut [Extent],
    store: &mut Store,
) -> Result<(Token, usize), Stop>
    requires { Roomy source.now token (lent_of store.old) × Blank block_count (words_in groups.old) × Blank block_count (bytes_in groups.old) }
    ensures kept { Kept store.old store.new }
    ensures gathers { GathersTo (members_of block (stream source.now token)) (groups_of (kind_of block) (branches_of block) (kinds_of block)) source.now token 1
        (lent_of store.old) (lent_of store.new) result }
    ensures first { FirstTo block source.now token groups.new result }
{
    let from = Extent {
        words: store.n,
        bytes: store.x,
    };
    let measured = members_pass(source, block, token, groups, &mut Store::measuring())?;
    if !store.is_measuring() {
        let first = groups[0].words;
        line_up(groups, from);
        members_pass(source, block, token, groups, store)?;
        groups[0].words = first;
    }
    store.n = from.words + measured.size.words;
    store.x = from.bytes + measured.size.bytes;
    Ok((measured.token, measured.count))
}

// A block in braces.
pub fn parse_block(
    source: &[u8],
    block: Block,
    token: Token,
    store: &mut Store,
) -> Result<(Token, usize), Stop>
    requires { Roomy source.now token (lent_of store.old) }
    ensures kept { Kept store.old store.new }
    ensures gathers { GathersTo (block_d (between_by (comma_of block)) (member_of block) (stream source.now token)) (groups_of (kind_of block) (branches_of block) (kinds_of block)) source.now token 2
        (lent_of store.old) (lent_of store.new) result }
{
    let opened = tokens::expect_punctuation(source, token, '{' as u32)?;
    let mut groups = [Extent::NONE; GROUPS];
    parse_members(source, block, opened, &mut groups, store)
}
