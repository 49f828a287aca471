// The sizes of the search, which are those of the machine that is searched, and its weights.

// The most states.
pub const MOST_STATES: usize = 64;

// The most pairs of states.
pub const MOST_PAIRS: usize = 4096;

// One more than the most pairs of a state and a letter, letter 0 among them.
pub const MOST_KEYS: usize = 16065;

// The most letters, letter 0 among them.
pub const MOST_READERS: usize = 251;

// A weight of this size and above says that nothing leads there. It is a number and no Option, since the loops of a block add and compare
// weights, and Option<u64> would make their arrays twice as large.
pub const NOTHING: u64 = 4611686018427387904;

// The weight of a move by a letter: one letter and one move.
pub const LETTER: u64 = 4294967297;

// The weight of a letter that both halves of a copy read: two letters and two moves.
pub const PAIR: u64 = 8589934594;
