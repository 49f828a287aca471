// A shortest common word of a machine and a plain machine, with a run of each: the answer, its definitions and laws, in specs/ and proofs/.

#![tactic(auto)]

// What the search finds: how many elements stand at the front of the word slice and of the two run slices.
#[derive(Clone, Copy, Debug, PartialEq, Eq)]
pub struct Lengths {
    pub letters: usize,
    pub first: usize,
    pub second: usize,
}
