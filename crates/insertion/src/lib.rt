#![tactic(auto)]

// Theorems over the definitions: what an insertion does to the chains, when there is no room for one, and that an empty arena passes the check. There is no code here: crate chain_insertion has it.
