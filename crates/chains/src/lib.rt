#![tactic(auto)]

// Chains of an arena (REFERENCE, Chains): every link is on one and on no other, and any two listings of them pair up.
// Laws alone; there is no code here.
