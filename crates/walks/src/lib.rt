#![tactic(auto)]

// Theorems over the definitions: a walk from a link gives its chain, each link once, then none. There is no code here: crate chain_iterators has the step.
