// What one tree of records is, and when two expressions are equal, said from the paper and from the Rust, and that the definitions of `tree`
// come to the same. There is no code here.
#![tactic(auto)]
