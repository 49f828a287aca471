// Table sheets: what the reader and the writer (crates sheet_reader and sheet_writer) are made of. specs/ has what a sheet is.
//
// header  the counts of line one
// parts   the three parts of a sheet, each read to its first fault or to its end
// faults  the faults of the numbers of one line

#![tactic(auto)]

pub mod faults;
pub mod header;
pub mod parts;

// The bytes of line one.
pub const HEADER_LENGTH: usize = 16;

// The bytes of a state's line.
pub const STATE_LENGTH: usize = 11;

// The bytes of a transition's line.
pub const TRANSITION_LENGTH: usize = 16;
