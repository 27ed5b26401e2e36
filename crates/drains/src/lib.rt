#![tactic(auto)]

// Theorems over the definitions: a drain takes exactly the links of one chain. There is no code here: crate chain_drain has it.
