// Whole layers: rows of least numbers, from the rows of the layers after them.
ghost use Rattle.std.specs.Prelude.{ℕ, ◌≤◌, ◌<◌, ◌≡◌, true, false, List};
ghost use Rattle.stateset.specs.Set.{In};
ghost use Rattle.fsbm.specs.declared.config.Mode.TheVariants.{Buffering, Emptying};
ghost use Rattle.targets.specs.Prepared.{Row};
ghost use Rattle.layers.specs.Rows.{Closed};
ghost use Rattle.layers.specs.Layers.{blank_row, row_of, NoneBelow, Seeded, FirstRow, EmptyingLayer, BufferingLayer, Storing, Round, ClosedPlace, PositionLayer};

use crate::moves::Moves;
use crate::row;
use crate::row::{NONE, Row};
use fsbm::config::Mode;
use fsbm::limits::MAX_STATES;
use fsbm::machine;
use stateset::StateSet;

// The three rows of a position, the buffer empty.
#[derive(Clone, Copy, Debug, PartialEq, Eq)]
pub struct Position {
    pub normal: Row,
    pub buffering: Row,
    pub emptying: Row,
}

impl Position {
    // The rows of a position that no run reaches.
    pub fn unreached() -> Position
        ensures { result ≡ record { normal = blank_row; buffering = blank_row; emptying = blank_row } }
    {
        Position {
            normal: blank(),
            buffering: blank(),
            emptying: blank(),
        }
    }

    // Whether a copy may end here: whether the row of emptying mode has a number at one of so many states.
    pub fn ends(&self, states: usize) -> bool
        requires { states ≤ 64 }
        ensures { result ≡ false → NoneBelow states self.now.emptying }
    {
        !row::is_blank(&self.emptying, states)
    }
}

// A row that says none everywhere.
pub fn blank() -> Row
    ensures { result ≡ blank_row }
{
    [NONE; MAX_STATES]
}

// A row that says none everywhere, to read from.
static BLANK: Row = [NONE; MAX_STATES];

// The same lent.
pub fn lent_blank() -> &'static Row
    ensures { result.now ≡ blank_row }
{
    &BLANK
}

// The row that is there, else a blank one.
pub fn or_blank(row: Option<Row>) -> Row
    ensures { result ≡ row_of row }
{
    row.unwrap_or(blank())
}

// The states that a copy is stored in at a position: all where one begins, else none.
fn storing_states(starts: StateSet, states: usize) -> StateSet
    ensures { Storing starts states result }
{
    if starts == 0 {
        return 0;
    }
    stateset::full(states)
}

impl Moves<'_> {
    // The row of the end of the word, in normal mode: 0 at the final states, none elsewhere.
    fn seeds(&self) -> Row
        ensures { Seeded self.now.table.machine self.now.table.machine.states result }
    {
        let mut row = blank();
        for q in 0..self.table.machine.states {
            if machine::is_final(&self.table.machine.marks, q) {
                row[q] = 0;
            }
        }
        row
    }

    // Lowers a row of buffering mode along the transitions that read nothing.
    fn close_buffering(&self, row: &mut Row)
        ensures { Closed self.now.table.machine self.now.table.list.now (λ q. q < self.now.table.machine.states) Buffering row.old row.new }
    {
        self.close(
            Mode::Buffering,
            stateset::full(self.table.machine.states),
            row,
        );
    }

    // Lowers a row of emptying mode along the transitions that read nothing: they lead from matching states.
    fn close_emptying(&self, row: &mut Row)
        ensures { Closed self.now.table.machine self.now.table.list.now (λ q. q < self.now.table.machine.states) Emptying row.old row.new }
    {
        self.close(Mode::Emptying, self.matching, row);
    }

    // Lowers a blank row to the row of emptying mode where x is the first letter of both the input and the buffer, from the row after it
    // is read. It says whether any number fell.
    pub fn emptying_layer(&self, x: u16, next: &Row, row: &mut Row) -> bool
        requires { Row self.now.table.machine self.now.table.list.now self.now.targets.now x × (row.old ≡ blank_row) }
        ensures { EmptyingLayer self.now.table.machine self.now.table.list.now x next.now row.new × (result ≡ false → row.new ≡ blank_row) }
    {
        if !self.read(Mode::Emptying, x, self.matching, next, row) {
            return false;
        }
        self.close_emptying(row);
        true
    }

    // Lowers a blank row to the row of buffering mode where x is the first letter of the input (0: there is none), from the row after it
    // is read and the row after the mode is changed. It says whether any number fell.
    pub fn buffering_layer(&self, x: u16, next: &Row, emptied: &Row, row: &mut Row) -> bool
        requires { Row self.now.table.machine self.now.table.list.now self.now.targets.now x × (row.old ≡ blank_row) }
        ensures { BufferingLayer self.now.table.machine self.now.table.list.now x next.now emptied.now row.new × (result ≡ false → row.new ≡ blank_row) }
    {
        let all = stateset::full(self.table.machine.states);
        let changed = row::change(self.matching, emptied, row);
        let passed = self.read(Mode::Buffering, x, all, next, row);
        if !changed && !passed {
            return false;
        }
        self.close_buffering(row);
        true
    }

    // One round over the rows of a position: the moves that read nothing, then the changes of mode. It says whether a change lowered
    // anything. Normal mode goes on in the states of near, and begins a copy in those of starts.
    fn round(&self, near: StateSet, starts: StateSet, position: &mut Position) -> bool
        requires { (q : ℕ) → In near q → q < self.now.table.machine.states }
        ensures { Round self.now.table.machine self.now.table.list.now near starts self.now.matching position.old.normal position.old.buffering position.old.emptying position.new.normal position.new.buffering position.new.emptying result }
    {
        self.close(Mode::Normal, near, &mut position.normal);
        self.close_buffering(&mut position.buffering);
        self.close_emptying(&mut position.emptying);
        let a = row::change(starts, &position.buffering, &mut position.normal);
        let b = row::change(self.matching, &position.emptying, &mut position.buffering);
        let c = row::change(self.matching, &position.normal, &mut position.emptying);
        a | b | c
    }

    // Lowers the rows of normal and emptying mode at a position where no copy begins along the moves that read nothing.
    fn close_shut(&self, near: StateSet, position: &mut Position)
        requires { (q : ℕ) → In near q → q < self.now.table.machine.states }
        ensures { ClosedPlace self.now.table.machine self.now.table.list.now near 0 self.now.matching position.old.normal position.old.buffering position.old.emptying position.new.normal position.new.buffering position.new.emptying }
    {
        self.close(Mode::Normal, near, &mut position.normal);
        row::change(self.matching, &position.normal, &mut position.emptying);
        self.close_emptying(&mut position.emptying);
    }

    // Lowers the three rows of a position along the moves that read nothing until none of them would lower a number.
    fn close_position(&self, near: StateSet, starts: StateSet, position: &mut Position)
        requires { (q : ℕ) → In near q → q < self.now.table.machine.states }
        ensures { ClosedPlace self.now.table.machine self.now.table.list.now near starts self.now.matching position.old.normal position.old.buffering position.old.emptying position.new.normal position.new.buffering position.new.emptying }
    {
        if starts == 0 {
            self.close_shut(near, position);
            return;
        }
        // Until a round changes nothing.
        while self.round(near, starts, position) {}
    }

    // The row that normal mode starts from: 0 at the final states where the word is read to its end, else none.
    fn first_row(&self, last: bool) -> Row
        ensures { FirstRow self.now.table.machine last result }
    {
        if last {
            return self.seeds();
        }
        blank()
    }

    // The three rows of the end of the word. Normal mode goes on in the states of near; where none of them is buffering, no copy begins,
    // and nothing is said of the row of buffering mode.
    pub fn end_layer(&self, near: StateSet) -> Position
        requires { (q : ℕ) → In near q → q < self.now.table.machine.states }
        ensures { (onward storing : List ℕ) → PositionLayer self.now.table.machine self.now.table.list.now near true 0 onward storing result.normal result.buffering result.emptying }
    {
        let mut position = Position {
            normal: self.seeds(),
            buffering: blank(),
            emptying: blank(),
        };
        self.close_position(
            near,
            stateset::intersection(near, self.buffering),
            &mut position,
        );
        position
    }

    // The same of a position where x is the first letter of the input (0: there is none), from the rows after it is read. `last` says that
    // the word is read to its end.
    pub fn position_layer(
        &self,
        near: StateSet,
        last: bool,
        x: u16,
        onward: &Row,
        storing: &Row,
    ) -> Position
        requires { Row self.now.table.machine self.now.table.list.now self.now.targets.now x × ((q : ℕ) → In near q → q < self.now.table.machine.states) }
        ensures { PositionLayer self.now.table.machine self.now.table.list.now near last x onward.now storing.now result.normal result.buffering result.emptying }
    {
        let starts = stateset::intersection(near, self.buffering);
        let all = storing_states(starts, self.table.machine.states);
        let mut position = Position {
            normal: self.first_row(last),
            buffering: blank(),
            emptying: blank(),
        };
        self.read(Mode::Normal, x, near, onward, &mut position.normal);
        self.read(Mode::Buffering, x, all, storing, &mut position.buffering);
        self.close_position(near, starts, &mut position);
        position
    }
}
