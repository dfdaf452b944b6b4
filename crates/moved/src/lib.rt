// The theorem of the move, and what it says of moved letters. There is no code here: what the theorems speak of stands in specs/, they in proofs/.
#![tactic(auto)]
