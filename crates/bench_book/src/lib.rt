// The book and the guarantee of the Bench level: theorems only.
#![tactic(auto)]
