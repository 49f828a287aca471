// Cost to go in moves, layer by layer: the fewest moves from each state to acceptance, at one rest of the input, one buffer and
// one mode.
//
// moves  a table with where its transitions lead
// layer  whole layers of least numbers
// row    rows of numbers, one a state: lowering along transitions and changes of mode

#![tactic(auto)]

pub mod layer;
pub mod moves;
pub mod row;
