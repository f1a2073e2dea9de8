// Feeding a file in parts: the parts fed one after another give the mark of the parts joined. Theorems only.
#![tactic(auto)]
