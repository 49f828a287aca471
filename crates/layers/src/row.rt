// Rows of numbers, one a state, lowered along transitions and changes of mode.
ghost use Rattle.std.specs.Prelude.{ℕ, ◌+◌, ◌*◌, ◌≤◌, ◌<◌, ◌≡◌, true, false, get_or};
ghost use Rattle.images.specs.Graph.{set_of};
ghost use Rattle.stateset.specs.Set.{In};
ghost use Rattle.targets.specs.Prepared.{Row};
ghost use Rattle.layers.specs.Costs.{none, at};
ghost use Rattle.layers.specs.Rows.{Lowered, Lowering, Through, Reads, Beside, Only, Within, Cut, Apart, Glance, Seen, LeastOf, Closed};

use crate::moves::Moves;
use fsbm::config::Mode;
use fsbm::limits::MAX_STATES;
use stateset::StateSet;

// The number that says that there is no way to acceptance.
pub const NONE: u32 = u32::MAX;

// A number for each state.
pub type Row = [u32; MAX_STATES];

// A row at a glance: the states that have a number, the least number, and the states that have it.
#[derive(Clone, Copy, Debug, PartialEq, Eq)]
struct Sum {
    live: StateSet,
    least: u32,
    lows: StateSet,
}

// The least number of the states below a number.
fn least_below(row: &Row, states: usize) -> u32
    requires { states ≤ 64 }
    ensures { (q : ℕ) → q < states → result ≤ at row.now q }
{
    let mut least = NONE;
    for q in 0..states {
        least = least.min(row[q]);
    }
    least
}

// The row at a glance. Two loops with no branches in them: which states have a number is hard to foresee.
fn glance(row: &Row, states: usize) -> Sum
    requires { states ≤ 64 }
    ensures { Glance row.now states result }
{
    let least = least_below(row, states);
    let mut live = stateset::empty();
    let mut lows = stateset::empty();
    for q in 0..states {
        let v = row[q];
        live = images::add_if(live, q, v < NONE);
        lows = images::add_if(lows, q, v == least);
    }
    Sum { live, least, lows }
}

// The least number of the states of a set. Time: the members of the set, each once.
fn least_of(row: &Row, set: StateSet) -> u32
    ensures { LeastOf row.now set result }
{
    let mut least = NONE;
    for a in stateset::members(set) {
        least = least.min(row[a]);
    }
    least
}

// The same of states that have numbers, from what the row shows at a glance where that tells it.
fn least_in(row: &Row, s: Sum, set: StateSet) -> u32
    requires { Seen row.now set s }
    ensures { LeastOf row.now set result }
{
    if stateset::intersection(set, s.lows) != 0 {
        return s.least;
    }
    least_of(row, set)
}

// Lowers the number of state a to v + 1 where that is less, and says whether it was.
fn lower(row: &mut Row, a: usize, v: u32) -> bool
    requires { a < 64 }
    ensures { Lowered row.old a v row.new result }
{
    let fewer = v.saturating_add(1);
    if row[a] <= fewer {
        return false;
    }
    row[a] = fewer;
    true
}

// Lowers the numbers of the states of a set along the changes of mode into the row `next`, and says whether any number fell.
// Time: the states of the set, each once.
pub fn change(set: StateSet, next: &Row, row: &mut Row) -> bool
    ensures { Lowering (Within (Beside next.now) set) row.old row.new result }
{
    let mut fell = false;
    for q in stateset::members(set) {
        fell |= lower(row, q, next[q]);
    }
    fell
}

// Whether a row says none at every state.
pub fn is_blank(row: &Row, states: usize) -> bool
    requires { states ≤ 64 }
    ensures { result ≡ true → (q : ℕ) → q < states → none ≤ at row.now q }
{
    least_below(row, states) == NONE
}

impl Moves<'_> {
    // The states of a set that a transition from a may lead to where both are matching or not: none of the matching ones where a is one.
    fn apart(&self, a: usize, set: StateSet) -> StateSet
        ensures { Apart self.now.matching a set result }
    {
        if stateset::member(self.matching, a) {
            return stateset::difference(set, self.matching);
        }
        set
    }

    // The states of a set that a transition from a may lead to in a mode.
    fn cut(&self, mode: Mode, a: usize, set: StateSet) -> StateSet
        ensures { Cut self.now.buffering self.now.matching mode a set result }
    {
        match mode {
            Mode::Normal if stateset::member(self.buffering, a) => stateset::empty(),
            Mode::Normal => self.apart(a, set),
            Mode::Buffering => stateset::difference(self.apart(a, set), self.buffering),
            Mode::Emptying if stateset::member(self.matching, a) => stateset::intersection(
                set,
                self.matching,
            ),
            Mode::Emptying => stateset::empty(),
        }
    }

    // The states that the transitions of state a that read x lead to.
    #[inline]
    fn targets_of(&self, x: u16, a: usize) -> StateSet
        requires { Row self.now.table.machine self.now.table.list.now self.now.targets.now x × (a < self.now.table.machine.states) }
        ensures { result ≡ get_or self.now.targets.now (set_of self.now.table.machine.states x a) 0 }
    {
        let states = self.table.machine.states;
        self.targets[2 + states + usize::from(x) * states + a]
    }

    // Lowers the number of state a along its transitions that read x into the row `next`.
    fn visit(&self, mode: Mode, x: u16, next: &Row, s: Sum, a: usize, row: &mut Row) -> bool
        requires { Row self.now.table.machine self.now.table.list.now self.now.targets.now x × (a < self.now.table.machine.states) × Glance next.now self.now.table.machine.states s }
        ensures { Lowering (Only (Through self.now.table.machine self.now.table.list.now mode x next.now) a) row.old row.new result }
    {
        let live = stateset::intersection(self.targets_of(x, a), s.live);
        if live == 0 {
            return lower(row, a, NONE);
        }
        let v = least_in(next, s, self.cut(mode, a, live));
        lower(row, a, v)
    }

    // Lowers the numbers of the states of a set along transitions that read x into the row `next`, and says whether any number fell. It is
    // always inlined, as read and close are: each call names a mode, which is then not tested state by state.
    // Time: the states of the set, each once; and for each, where its targets do not have the least number of all, its targets.
    #[inline(always)]
    fn pass(&self, mode: Mode, x: u16, set: StateSet, next: &Row, row: &mut Row) -> bool
        requires { Row self.now.table.machine self.now.table.list.now self.now.targets.now x × ((q : ℕ) → In set q → q < self.now.table.machine.states) }
        ensures { Lowering (Within (Through self.now.table.machine self.now.table.list.now mode x next.now) set) row.old row.new result }
    {
        let s = glance(next, self.table.machine.states);
        let mut fell = false;
        for a in stateset::members(set) {
            fell |= self.visit(mode, x, next, s, a, row);
        }
        fell
    }

    // The same where x is a letter; where it is 0, nothing is read.
    #[inline(always)]
    pub fn read(&self, mode: Mode, x: u16, set: StateSet, next: &Row, row: &mut Row) -> bool
        requires { Row self.now.table.machine self.now.table.list.now self.now.targets.now x × ((q : ℕ) → In set q → q < self.now.table.machine.states) }
        ensures { Lowering (Within (Reads self.now.table.machine self.now.table.list.now mode x next.now) set) row.old row.new result }
    {
        x != 0 && self.pass(mode, x, set, next, row)
    }

    // Lowers the numbers of the states of a set along transitions that read nothing until none of them would lower one.
    #[inline(always)]
    pub fn close(&self, mode: Mode, set: StateSet, row: &mut Row)
        requires { (q : ℕ) → In set q → q < self.now.table.machine.states }
        ensures { Closed self.now.table.machine self.now.table.list.now (In set) mode row.old row.new }
    {
        let may = stateset::intersection(set, self.targets[0]);
        if may == 0 {
            return;
        }
        let mut old = *row;
        // Until a pass changes nothing.
        while self.pass(mode, 0, may, &old, row) {
            old = *row;
        }
    }
}
