// Theorems about the check's definition stand in proofs/. There is no code here.

#![tactic(auto)]
