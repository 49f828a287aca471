// The counts of a table, as line one of its sheet holds them.
ghost use Rattle.fsbm.specs.Rules.{Counts};

// The three counts, each in its range.
#[derive(Clone, Copy, Debug, PartialEq, Eq)]
pub struct Header {
    pub states: usize,
    pub letters: usize,
    pub transitions: usize,
    ghost counts: { Counts states letters transitions },
}
