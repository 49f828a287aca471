// Least weights from a start, for one machine: letters × 2^32 + moves, for each state in normal mode.
//
// fall      numbers that are lowered, and the normal moves
// turns     turns of normal moves and of copies, until nothing is lowered any more: costs is the call
//
// The functions ask what a public call above them has tested: they are seams between crates.

#![tactic(auto)]

pub mod fall;
pub mod turns;
