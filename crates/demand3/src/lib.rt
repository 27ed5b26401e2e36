// Demand 3, proved of the definition that the exported canonical compression cites. The theorem stands in proofs/Demand3.antt.
// Laws alone; there is no code here.

#![tactic(auto)]
