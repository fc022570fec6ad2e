// That each promise of the library crates settles its answer. There is no code here.

#![tactic(auto)]
