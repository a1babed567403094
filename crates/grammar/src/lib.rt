// The library's calls.
#![tactic(auto)]
