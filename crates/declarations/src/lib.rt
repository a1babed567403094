// Declarations of a grammar file, stored as they are read.
#![tactic(auto)]

pub mod blocks; // precedences and conflicts
pub mod externals; // declarations that name a source
pub mod rules; // rules, names and references
