// A word beside a machine, with the states that runs reach: what every table of rows is filled from.
ghost use Rattle.std.specs.Prelude.{◌≤◌, length};
ghost use Rattle.tables.specs.Tables.{Known};
ghost use Rattle.tables.specs.Tables.Once.{known_once};

use fsbm::limits::POSITIONS;
use layers::moves::Moves;
use stateset::StateSet;

// A word of at most 255 letters, where the transitions of a machine lead that read them, and in sets for each position of the word the
// states that runs reach there in normal mode.
#[derive(Clone, Copy)]
pub struct Word<'a> {
    pub moves: Moves<'a>,
    pub sets: &'a [StateSet; POSITIONS],
    pub letters: &'a [u8],
    ghost known: { Known moves.table.machine moves.table.list.now moves.targets.now moves.buffering moves.matching letters.now } by { known_once moves.table.machine moves.table.list.now moves.targets.now moves.buffering moves.matching letters.now },
    ghost short: { length letters.now ≤ 255 },
}
