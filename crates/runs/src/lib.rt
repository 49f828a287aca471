// Writing a run: given a machine and a word that it accepts, an accepting run with the fewest entries.
//
// lookup  what the cost of a configuration is looked up in
// walk    write_run, a seam between crates: the call above it tests what it requires

#![tactic(auto)]

pub mod lookup;
pub mod walk;
