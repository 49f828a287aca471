// A run of the product is taken apart into runs of its two machines.
//
// lookup   the number of a transition, by its triple
// split    both machines' runs from a run of the product
//
// The functions ask what a public call above them has tested: they are seams between crates.

#![tactic(auto)]

pub mod lookup;
pub mod split;
