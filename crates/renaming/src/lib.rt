#![tactic(auto)]

// Any order that lists the links once each, laid out by `relocate`, renames every link once and leaves a well formed arena: said for both
// compressions together. Laws alone; there is no code here.
