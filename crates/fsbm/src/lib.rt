// Finite-state buffered machines: the machine and its rules, the moves, runs, and the run checker.
//
// limits    the limits of document 01
// machine   Machine, Transition; the four tests of a state's mark; the rules of a table (refusal 16)
// config    Mode, Config; one move of a run; the public call Config::step
// run       the public call check_run
// table     Table, a machine with its list that obey the rules
// answer    Refusal; the tests that come before every answer on a table and a word

#![tactic(auto)]

pub mod answer;
pub mod config;
pub mod limits;
pub mod machine;
pub mod run;
pub mod table;
