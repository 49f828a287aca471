// What the cost of a configuration is looked up in, and the rows that change from one configuration to the next.
ghost use Rattle.adjacency.specs.Index.{Index};
ghost use Rattle.runs.specs.Once.{index_once};

use adjacency::Adjacency;
use layers::row::Row;
use tables::word::Word;

// A word, where the transitions of each state begin, and the rows of the word's positions.
#[derive(Clone, Copy)]
pub struct Lookup<'w, 'r> {
    pub word: Word<'w>,
    pub index: Adjacency,
    pub positions: &'r [Row],
    ghost indexed: { Index word.moves.table.machine word.moves.table.list.now index.first } by { index_once word.moves.table.machine word.moves.table.list.now index.first },
}

// The rows of the copy that a run is in: of its second half, and of its first.
#[derive(Debug, Drop)]
pub struct Copies<'a> {
    pub emptied: &'a mut [Row],
    pub stored: &'a mut [Row],
}
