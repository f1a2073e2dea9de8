// The book and the guarantee of the Site level: theorems only.
#![tactic(auto)]
