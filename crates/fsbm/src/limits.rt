// The limits of document 01.

// The most states of a table.
pub const MAX_STATES: usize = 64;

// The most letters of a table.
pub const MAX_LETTERS: usize = 250;

// The most transitions of a table.
pub const MAX_TRANSITIONS: usize = 4000;

// The numbers of the longest list of transitions, three for each.
pub const LIST_LENGTH: usize = 12000;

// The most letters of a word that is recognized, or whose copies or page are wanted.
pub const LONGEST_WORD: usize = 255;

// How many positions such a word has: one before each letter, and its end.
pub const POSITIONS: usize = 256;

// The most letters of a word whose run is checked.
pub const LONGEST_CHECKED: usize = 1048576;
