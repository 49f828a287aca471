// The subset construction on demand: what a set of states leads to, in each mode, by each letter, is found once and then kept in a row of
// its own, from word to word. A number of a row beside a set is only a hint, which is looked at before it is used; so what is kept never
// says which set is right, and may be forgotten or have no room.
//
// A memo has
//
// rows   the first number says how many rows are taken, one more than there are; behind it stands the set of each row. With no room for one
//        nothing is kept
// steps  the first SLOTS numbers are slots, in which the row of a set is looked for; behind them each row has a number for each mode and
//        column: the row that it leads to, or 0 if that is not known. Column 0 is no letter's (closures), column 1 + x is that of letter x
//
// begin     where a set leads before a letter is read
// read      where a set leads by a letter
// with_row  a set with its row

#![tactic(auto)]

ghost use Rattle.std.specs.Prelude.{ℕ, suc, ◌+◌, ◌*◌, ◌≤◌, ◌<◌, ◌≡◌, true, length, get_or, IfSome};
ghost use Rattle.images.specs.Graph.{Members, From, Graph, Room};
ghost use Rattle.images.specs.Moves.{graph_of};
ghost use Rattle.subsets.specs.Rows.{cell_of, slots, most_columns, Begun, Reads, Image, HasRow, Sized, Found, Rowed, Noted};
ghost use Rattle.subsets.specs.Memo.{Holds, SamePlaces};

use fsbm::config::Mode;
use images::Targets;
use stateset::StateSet;

// The slots.
const SLOTS: usize = 1021;

// Their number as what a set is divided by: its slot is the remainder.
const DIVISOR: u64 = 1021;

// The most rows: their numbers have 16 bits.
const MOST_ROWS: usize = 65535;

// The numbers that a caller lends for rows, where much is to be kept.
pub const ROWS: usize = 1024;

// The numbers that it lends for their steps.
pub const STEPS: usize = 32768;

// The columns of a mode where a machine has this many letters: one that is no letter's, and one for each, letter 0 among them.
pub fn columns_for(letters: usize) -> usize
    requires { letters ≤ 250 }
    ensures { result ≡ letters + 2 }
{
    letters + 2
}

// A set of states and the number of its row; 0 if it has none. The number may be any: it is a hint.
#[derive(Clone, Copy, Debug, Default, PartialEq, Eq)]
pub struct Subset {
    pub set: StateSet,
    pub row: usize,
}

// What is kept of the subset construction of a machine, in the numbers that a caller lends: the columns of a mode, the rows, the steps.
#[derive(Drop)]
pub struct Memo<'a> {
    pub columns: usize,
    pub rows: &'a mut [StateSet],
    pub steps: &'a mut [u16],
}

// Where a row has its number for a mode and a column.
fn cell(columns: usize, row: usize, mode: Mode, column: usize) -> usize
    requires { (columns ≤ most_columns) × (row ≤ 65535) × (column < columns) }
    ensures { result ≡ cell_of columns row mode column }
{
    SLOTS + (row * 3 + usize::from(mode.number())) * columns + column
}

// What column 0 of a mode stands for: the closure at a position, the states where copies begin, the states where matching begins.
fn begun(t: &Targets, mode: Mode, set: StateSet) -> StateSet
    ensures { Members result (From set (Begun (graph_of t.now) mode)) }
{
    match mode {
        Mode::Normal => t.close_position(set),
        Mode::Buffering => t.close_set(mode, stateset::intersection(set, t.buffering)),
        Mode::Emptying => t.close_set(mode, stateset::intersection(set, t.matching)),
    }
}

// What the column of letter x stands for: reading it, and but for normal mode epsilon moves after it.
fn lettered(t: &Targets, mode: Mode, set: StateSet, x: u8) -> StateSet
    requires { Room t.now.sets.now t.now.states x }
    ensures { Members result (From set (Reads (graph_of t.now) mode x)) }
{
    match mode {
        Mode::Normal => t.read_set(mode, set, x),
        Mode::Buffering | Mode::Emptying => t.advance(mode, set, x),
    }
}

// What a column of a mode stands for.
fn image(t: &Targets, mode: Mode, column: usize, set: StateSet) -> StateSet
    requires { (column ≤ 256) × ((x : ℕ) → column ≡ suc x → Room t.now.sets.now t.now.states x) }
    ensures { Members result (From set (Image (graph_of t.now) mode column)) }
{
    if column == 0 {
        return begun(t, mode, set);
    }
    lettered(t, mode, set, (column - 1) as u8)
}

impl<'a> Memo<'a> {
    // Whether the row of a subset is that of its set.
    fn has_row(&self, from: Subset) -> bool
        requires { (0 < length self.now.rows.now) × (get_or self.now.rows.now 0 0 ≤ length self.now.rows.now) }
        ensures { result ≡ true → HasRow self.now.rows.now from.set from.row }
    {
        let row = from.row;
        0 < row && (row as u64) < self.rows[0] && self.rows[row] == from.set
    }

    // The row that a subset's row leads to, if that is known.
    fn known(&self, mode: Mode, column: usize, from: Subset) -> Option<usize>
        requires { Sized self.now.columns self.now.rows.now self.now.steps.now }
        ensures { IfSome result (Found self.now.columns self.now.rows.now self.now.steps.now mode column from.set from.row) }
    {
        if self.columns <= column {
            return None;
        }
        if !self.has_row(from) {
            return None;
        }
        let row = usize::from(self.steps[cell(self.columns, from.row, mode, column)]);
        if row == 0 {
            return None;
        }
        Some(row)
    }

    // Whether there is room for one more row where so many are taken.
    fn has_room(&self, taken: usize) -> bool
        requires { (self.now.columns ≤ most_columns) × (taken ≤ length self.now.rows.now) }
        ensures { result ≡ true → (taken < length self.now.rows.now) × (taken < 65535) × (slots + (taken * 3 + 3) * self.now.columns ≤ length self.now.steps.now) }
    {
        taken < self.rows.len()
            && taken < MOST_ROWS
            && SLOTS + (taken * 3 + 3) * self.columns <= self.steps.len()
    }

    // Takes a row for a set, if there is room, and puts it into a slot.
    fn new_row(&mut self, set: StateSet, slot: usize) -> Option<usize>
        requires { Sized self.old.columns self.old.rows.now self.old.steps.now × (slot < slots) × (slot < length self.old.steps.now) }
        ensures { Rowed self.old.columns self.old.rows.now self.old.steps.now self.new.rows.now self.new.steps.now set result × SamePlaces self.old self.new }
    {
        let taken = self.rows[0] as usize;
        if taken == 0 {
            return None;
        }
        if !self.has_room(taken) {
            return None;
        }
        self.rows[taken] = set;
        self.rows[0] = (taken + 1) as u64;
        self.steps[slot] = taken as u16;
        Some(taken)
    }

    // The row of a set: the one in its slot if it is that of the set, else a new one, if there is room.
    fn row_for(&mut self, set: StateSet) -> Option<usize>
        requires { Sized self.old.columns self.old.rows.now self.old.steps.now }
        ensures { Rowed self.old.columns self.old.rows.now self.old.steps.now self.new.rows.now self.new.steps.now set result × SamePlaces self.old self.new }
    {
        let slot = (set % DIVISOR) as usize;
        if self.steps.len() <= slot {
            return None;
        }
        let row = usize::from(self.steps[slot]);
        if self.has_row(Subset { set, row }) {
            return Some(row);
        }
        self.new_row(set, slot)
    }

    // Keeps a step of a subset's row, if that is the row of its set.
    fn note(&mut self, mode: Mode, column: usize, from: Subset, to: Subset)
        requires { Sized self.old.columns self.old.rows.now self.old.steps.now × HasRow self.old.rows.now to.set to.row }
        ensures { Noted self.old.columns self.old.rows.now self.old.steps.now self.new.steps.now mode column from.set to.set
            × (self.new.rows.now ≡ self.old.rows.now) × SamePlaces self.old self.new }
    {
        if self.columns <= column {
            return;
        }
        if !self.has_row(from) {
            return;
        }
        self.steps[cell(self.columns, from.row, mode, column)] = to.row as u16;
    }

    // A set that a subset leads to by a column of a mode, with its row; what is found is kept. With one number in rows nothing is.
    fn keep(&mut self, mode: Mode, column: usize, from: Subset, set: StateSet) -> Subset
        requires { Sized self.old.columns self.old.rows.now self.old.steps.now }
        ensures { (result.set ≡ set) × ((G : Graph) → Holds G self.old → Members set (From from.set (Image G mode column)) → Holds G self.new)
            × SamePlaces self.old self.new }
    {
        if self.rows.len() <= 1 {
            return Subset { set, row: 0 };
        }
        match self.row_for(set) {
            None => Subset { set, row: 0 },
            Some(row) => {
                let to = Subset { set, row };
                self.note(mode, column, from, to);
                to
            }
        }
    }

    // The set that a subset leads to by a column of a mode, found in the table and then kept. It is called from two places: the compiler
    // then leaves it in a function of its own, and puts the look at a row, which is short, into the loops.
    fn found_anew(&mut self, t: &Targets, mode: Mode, column: usize, from: Subset) -> Subset
        requires { (column ≤ 256) × ((x : ℕ) → column ≡ suc x → Room t.now.sets.now t.now.states x) × Holds (graph_of t.now) self.old }
        ensures { Members result.set (From from.set (Image (graph_of t.now) mode column))
            × Holds (graph_of t.now) self.new × SamePlaces self.old self.new }
    {
        let set = image(t, mode, column, from.set);
        self.keep(mode, column, from, set)
    }

    // Where a subset leads before a letter is read: in normal mode its closure at a position, in buffering mode the closure of its
    // buffering states, where copies begin, in emptying mode that of its matching states, where matching begins.
    // Time: a look at its row where that has the step, else the members of the set.
    pub fn begin(&mut self, t: &Targets, mode: Mode, from: Subset) -> Subset
        requires { Holds (graph_of t.now) self.old }
        ensures { Members result.set (From from.set (Begun (graph_of t.now) mode)) × Holds (graph_of t.now) self.new × SamePlaces self.old self.new }
    {
        match self.known(mode, 0, from) {
            Some(row) => Subset {
                set: self.rows[row],
                row,
            },
            None => self.found_anew(t, mode, 0, from),
        }
    }

    // Where a subset leads by the letter x: by a move that reads it, and but for normal mode epsilon moves after it.
    // Time: a look at its row where that has the step, else the members of the set.
    pub fn read(&mut self, t: &Targets, mode: Mode, from: Subset, x: u8) -> Subset
        requires { Room t.now.sets.now t.now.states x × Holds (graph_of t.now) self.old }
        ensures { Members result.set (From from.set (Reads (graph_of t.now) mode x)) × Holds (graph_of t.now) self.new × SamePlaces self.old self.new }
    {
        let column = 1 + usize::from(x);
        match self.known(mode, column, from) {
            Some(row) => Subset {
                set: self.rows[row],
                row,
            },
            None => self.found_anew(t, mode, column, from),
        }
    }

    // The set with its row: that of the hint where it is of the same set, else looked for.
    pub fn with_row(&mut self, set: StateSet, hint: Subset) -> Subset
        requires { Sized self.old.columns self.old.rows.now self.old.steps.now }
        ensures { (result.set ≡ set) × ((G : Graph) → Holds G self.old → Holds G self.new) × SamePlaces self.old self.new }
    {
        if set == hint.set {
            return hint;
        }
        if self.rows.len() <= 1 {
            return Subset { set, row: 0 };
        }
        let row = self.row_for(set).unwrap_or(0);
        Subset { set, row }
    }
}
