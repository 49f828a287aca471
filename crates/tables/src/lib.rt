// The tables of rows that a run is written from: the fewest moves to acceptance from every configuration with an empty buffer, and
// from those of the copies that begin at one position.
//
// word    a word beside a machine, with the states that runs reach
// ends    what is kept of the copies that end at each position
// halves  stretches of a word that stand a second time after themselves
// copy    the rows of copies: emptying_rows of a second half, buffering_rows of a first half, storing_row of all that begin at a position
// table   fill: the rows of every position

#![tactic(auto)]

pub mod copy;
pub mod ends;
pub mod halves;
pub mod table;
pub mod word;
