#![tactic(auto)]

// What every call means stands in specs/, and docs/REFERENCE.md tells it as a manual. There is no code here: the crates above it meet these
// definitions.
