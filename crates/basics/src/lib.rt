// The crate has no code: it holds definitions and laws of plain logic, in specs/: Bools, lists, two numbers as one, bounded search, counting.

#![tactic(auto)]
