// The three demands, each named as a theorem: this crate proves only while each of them has its proof. There is no code here.
#![tactic(auto)]
