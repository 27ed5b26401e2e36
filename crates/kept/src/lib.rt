// Theorems over the definitions: what every call keeps. There is no code here.

#![tactic(auto)]
