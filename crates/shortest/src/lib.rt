// Writes a shortest word of a machine and its run, from the least weights.
//
// into     lists of the transitions that enter each state
// traced   a searched table with its least weights and these lists
// find     a transition, or a move of a pair, along which a number is reached exactly
// put      entries and letters put in front of what is written
// copy     a whole copy, walked back through a block
// write    the word and its run
//
// The functions ask what a public call above them has tested: they are seams between crates.

#![tactic(auto)]

pub mod copy;
pub mod find;
pub mod into;
pub mod put;
pub mod traced;
pub mod write;
