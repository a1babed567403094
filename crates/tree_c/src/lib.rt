// The functions of tree under plain names, for programs in Rust or C to link: compare/tree does.
#![tactic(auto)]

ghost use Rattle.std.specs.Prelude.{◌≡◌, eqb};
ghost use Rattle.tree.specs.OneTree.{is_expression, build};
ghost use Rattle.tree.specs.Promise.{is_some, comparison};
ghost use Rattle.tree_c.specs.Answers.{comparison_number};

use error::Cause;
use tree::{NotATree, Root, Tree};

// The words and texts are one tree, its root an expression.
#[unsafe(no_mangle)]
pub extern "C" fn tree_is_expression(records: &[u32], texts: &[u8]) -> bool
    ensures { result ≡ is_some (build is_expression records.now texts.now) }
{
    Tree { records, texts }.is_tree(Root::Expression)
}

// The words and texts are one tree, its root a grammar.
#[unsafe(no_mangle)]
pub extern "C" fn tree_is_grammar(records: &[u32], texts: &[u8]) -> bool
    ensures { result ≡ is_some (build (λ k. eqb k 1) records.now texts.now) }
{
    Tree { records, texts }.is_tree(Root::Grammar)
}

// 1 for equal, 0 for different, 25, the number of its cause, where one of the two is not a tree.
#[unsafe(no_mangle)]
pub extern "C" fn tree_structurally_eq(
    left: &[u32],
    lefts: &[u8],
    right: &[u32],
    rights: &[u8],
) -> u32
    ensures { result ≡ comparison_number (comparison (build is_expression left.now lefts.now) (build is_expression right.now rights.now)) }
{
    let tree = Tree {
        records: left,
        texts: lefts,
    };
    let other = Tree {
        records: right,
        texts: rights,
    };
    match tree.structurally_eq(other) {
        Ok(equal) => equal as u32,
        Err(NotATree) => Cause::NotATree.number(),
    }
}
