// A later now never gives an earlier answer: a law of the definitions. There is no code here.

#![tactic(auto)]
