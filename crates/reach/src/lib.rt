// The ground of a yes or a no: the states that the runs on a word reach, at each position and in each mode.
//
// answer  the public call reach
// copies  the states reached while storing and while matching, copy by copy

#![tactic(auto)]

pub mod answer;
pub mod copies;
