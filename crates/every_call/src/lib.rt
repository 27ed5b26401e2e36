#![tactic(auto)]

// Theorems about every public call: a refusal changes nothing, an accepted call leaves an arena that passes the check, and a run is the fold of its
// commands. And about some of them: the lines of a frame, what is due, that compressions ignore payloads, what is given as a small arena. There is no code here.
