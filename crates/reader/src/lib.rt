// The whole of a grammar file, stored in groups.
#![tactic(auto)]

pub mod blocks; // members of blocks, in groups
pub mod directives; // declarations that hold a block
pub mod top; // declarations at top level
pub mod whole; // all declarations
pub mod words; // the words that they begin with
