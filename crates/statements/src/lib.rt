#![tactic(auto)]

// What is promised and proved of the calls beyond what each of them answers stands in specs/: chains, what canonical compression keeps, the order of a walk, what
// a drain takes, what an insertion does to the chains, which slot 11 names, the lines of a frame and what is due, that compressions ignore payloads, what a
// small arena is and in which order they come, what is true of every call. There is no code here: the crates of theory above it prove these statements.
