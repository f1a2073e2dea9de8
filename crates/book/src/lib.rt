// The plain book of demand 3, for any level of delivery: the definitions are in specs/, the claims proved for every level in proofs/.
#![tactic(auto)]
