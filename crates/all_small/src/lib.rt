// The list of all small arenas and what the call that gives them replies stand in specs/; proofs/ shows that the list is whole and in order. There is no code
// here: the crates small_table, small_layout and small_arenas meet these definitions.

#![tactic(auto)]
