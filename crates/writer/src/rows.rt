// A record of a tree whose kinds are known.

ghost use Rattle.std.specs.Prelude.{◌≡◌, ◌<◌};
ghost use Rattle.tree.specs.Promise.{count_of, word_at, kind_number};
ghost use Rattle.writer.specs.Promise.{Lent};

use tree::{KIND, NodeKind, Tree, VALUE, word};

// The record i of a tree, with its kind and value, which are looked up once.
#[derive(Clone, Copy)]
pub struct Row<'a> {
    pub tree: Tree<'a>,
    pub i: usize,
    pub kind: NodeKind,
    pub value: u32,
    ghost lent: { Lent tree.records.now tree.texts.now },
    ghost there: { i < count_of tree.records.now },
    ghost kinds: { kind_number kind ≡ word_at tree.records.now i 0 },
    ghost values: { value ≡ word_at tree.records.now i 4 },
}

impl<'a> Row<'a> {
    pub fn of(tree: Tree<'a>, i: usize) -> Row<'a>
        requires { Lent tree.records.now tree.texts.now × (i < count_of tree.records.now) }
        ensures records { result.tree.records.now ≡ tree.entry.records.now }
        ensures texts { result.tree.texts.now ≡ tree.entry.texts.now }
        ensures i { result.i ≡ i }
    {
        let Ok(kind) = NodeKind::try_from(word(tree.records, i, KIND)) else {
            unreachable!()
        };
        let value = word(tree.records, i, VALUE);
        Row {
            tree,
            i,
            kind,
            value,
        }
    }
}
