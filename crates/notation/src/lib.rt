// The definitions of the parser, and the laws of its loop; there is no code here.
#![tactic(auto)]
