// The guarantee of the Keyholder level: the numbers of drawing, the drawn key, and the risk of an owner who draws one. Statements in specs/, proofs in proofs/.
#![tactic(auto)]
