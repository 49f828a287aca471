// The crate has no code: it holds definitions and laws on graphs, in specs/: paths, what is reachable, cost to go, the least number with a property.

#![tactic(auto)]
