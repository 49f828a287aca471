// The library for C and Rust: each function is a thin call of a proved one. include/zagvirk.h has the prototypes, but for
// that of comparison.

#![tactic(auto)]

pub mod common_words;
pub mod comparison;
pub mod pages;
pub mod products;
pub mod reached_states;
pub mod recognition;
pub mod records;
pub mod run;
pub mod sheets;
pub mod yes_or_no;
