// A table's machine with where its transitions lead: what every row of numbers is lowered by.
ghost use Rattle.layers.specs.Rows.{Given};
ghost use Rattle.layers.specs.Rows.Once.{given_once};

use fsbm::table::Table;
use stateset::StateSet;

// A table, and in targets a table of target sets: that of letter x and state a at 2 + states + x * states + a, the states with epsilon
// transitions at 0. The sets are those of the buffering and of the matching states.
#[derive(Clone, Copy)]
pub struct Moves<'a> {
    pub table: Table<'a>,
    pub targets: &'a [StateSet],
    pub buffering: StateSet,
    pub matching: StateSet,
    ghost given: { Given table.machine table.list.now targets.now buffering matching } by { given_once table.machine table.list.now targets.now buffering matching },
}
