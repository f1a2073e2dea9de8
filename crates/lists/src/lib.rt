// Lists of numbers, truth values, counts and sums: the definitions are in specs/, their laws in proofs/.
#![tactic(auto)]
