// The algebra of sharing over any field. There is no code here: specs/ is the library.
#![tactic(auto)]
