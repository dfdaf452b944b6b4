// The demands on the product, as theorems about its definitions. There is no code here: what the theorems speak of stands in specs/, they in proofs/.
#![tactic(auto)]
