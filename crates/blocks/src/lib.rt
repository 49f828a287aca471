// Least weights within one copy, for one guess of the state where storing ends and matching begins (a block). The two halves of a copy are
// walked side by side, as pairs of states; a weight is letters × 2^32 + moves.
//
// sizes     the sizes of the search and its numbers
// index     the transitions by state and letter
// readers   for each letter the matching states that can read it
// searched  a table with its index, its sets of states and its readers
// numbers   the numbers of a block, lowered and marked
// gather    the least numbers that the pairs of a row lead to
// row       all moves from the pairs of a row
// block     a whole block
//
// The functions ask what a public call above them has tested: they are seams between crates.

#![tactic(auto)]

pub mod block;
pub mod gather;
pub mod index;
pub mod numbers;
pub mod readers;
pub mod row;
pub mod searched;
pub mod sizes;
