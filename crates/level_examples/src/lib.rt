// Lists of calls and routes at the levels Bench and Site, worked out: so that the claims of their guarantees are not empty. Theorems only, in proofs/.
#![tactic(auto)]
