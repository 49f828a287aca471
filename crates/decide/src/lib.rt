// Whether a machine accepts a word, by sets of states. Transitions are looked up in a prepared table of sets.
//
// walks    the states that a stretch of letters leads to
// squares  stretches of a word that stand twice in a row
// positions   the states reached at each position of a word; decide

#![tactic(auto)]

pub mod positions;
pub mod squares;
pub mod walks;
