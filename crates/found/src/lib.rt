// What the search has found: its answer, from the least weights of the product.
//
// answer       the answer
// best         the final state with the least number
// write        a shortest common word with a run of each machine, written from the least weights

#![tactic(auto)]

pub mod answer;
pub mod best;
mod write;
