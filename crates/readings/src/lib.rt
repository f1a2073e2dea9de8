// The bench readings of document 01 that are marked P, and readings of degree 64 (document 02, wish 8): two tables in specs/, each proved by one
// result in proofs/.
#![tactic(auto)]
