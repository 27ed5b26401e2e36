// The words of a lent arena's header, by name (REFERENCE, Arena).
#![tactic(auto)]

// How many words the header is.
pub const HEADER_WORDS: usize = 4;

// The word that says how many slots are in the stack, allocated or free.
pub const STACK_LENGTH: usize = 0;

// The word that says how many links there are.
pub const LINK_COUNT: usize = 1;

// The word that names the first slot of the freelist, 0 if no slot is free.
pub const ROOT: usize = 2;

// The word that is the current generation.
pub const CURRENT_GENERATION: usize = 3;
