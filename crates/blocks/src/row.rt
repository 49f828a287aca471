// One row of a block: the moves of pairs whose storing half is in one state.
//
// row       lowers numbers along all moves from the pairs of a row
ghost use Rattle.std.specs.Prelude.{ℕ, ◌+◌, ◌*◌, ◌≤◌, ◌<◌, ◌≡◌, get_or};
ghost use Rattle.fsbm.specs.Machine.{transition_at};
ghost use Rattle.pieces.specs.Blocks.{nothing};
ghost use Rattle.blocks.specs.Gathered.{Adding};
ghost use Rattle.blocks.specs.Works.{Storable, RowSo, RowOn, RowDone, Moves};

use crate::gather;
use crate::numbers::{Pairs, Row};
use crate::searched::Searched;
use crate::sizes::{MOST_PAIRS, MOST_STATES, PAIR};
use stateset::StateSet;

impl<'a> Searched<'a> {
    // The states that a storing move from s may enter.
    fn storable(&self, s: usize) -> StateSet
        ensures { Storable self.now.table.machine s result }
    {
        let free = stateset::difference(stateset::full(64), self.kinds.buffering);
        if stateset::member(self.kinds.matching, s) {
            stateset::difference(free, self.kinds.matching)
        } else {
            free
        }
    }

    // The least numbers of the pairs that the row leads to by the letter x, without their storing halves: for letter 0, by which the
    // storing half moves alone, for each state of the row; for another letter, by which both move, for each matching state that it leads
    // to from a matching one of the row.
    fn moved(
        &self,
        x: usize,
        row: Row,
        b: &[u64; MOST_PAIRS],
        p: &mut [u64; MOST_STATES],
    ) -> StateSet
        requires { (x ≤ self.now.table.machine.letters) × (row.storing < 64) × (row.top ≤ nothing) }
        ensures { Adding (Moves self.now.table.list.now self.now.index.now row.top (self.now.table.machine.letters + 1) x self.now.kinds.matching b.now row.storing row.matching) p.old 0 p.new result }
    {
        if x == 0 {
            gather::stay(row, b, p)
        } else {
            self.gather(x, PAIR, row, b, p)
        }
    }

    // Lowers the numbers of the row along the moves of the matching half alone.
    fn alone(&self, row: Row, pairs: &mut Pairs, p: &mut [u64; MOST_STATES])
        requires { (row.storing < self.now.table.machine.states) × (row.top ≤ nothing) }
        ensures { RowSo self.now.table.machine self.now.table.list.now row.top row.storing row.matching (get_or self.now.index.now (row.storing * (self.now.table.machine.letters + 1) + 0) 0) pairs.old.numbers pairs.old.marks pairs.new.numbers pairs.new.marks }
    {
        let got = self.gather(0, 1, row, &pairs.numbers, p);
        pairs.put(row.storing, got, p);
    }

    // Lowers numbers along the moves by the letter of transition lo, which leaves the row's state, with transition lo and those after it
    // for the storing half; the first transition by another letter.
    fn group(
        &self,
        row: Row,
        may: StateSet,
        lo: usize,
        pairs: &mut Pairs,
        p: &mut [u64; MOST_STATES],
    ) -> usize
        requires storable { Storable self.now.table.machine row.storing may }
        requires row_bound { (row.storing < self.now.table.machine.states) × (row.top ≤ nothing) }
        requires lo_lt_transitions { (lo < self.now.table.machine.transitions) × ((transition_at self.now.table.list.now lo).from ≡ row.storing) }
        ensures { (lo < result) × RowOn self.now.table.machine self.now.table.list.now row.top row.storing row.matching lo pairs.old.numbers pairs.old.marks result pairs.new.numbers pairs.new.marks }
    {
        let x = usize::from(self.table.list[lo * 3 + 1]);
        let stride = self.table.machine.letters + 1;
        let hi = usize::from(self.index[row.storing * stride + x + 1]);
        let got = self.moved(x, row, &pairs.numbers, p);
        pairs.spread(self.table.list, lo, hi, may, got, p);
        hi
    }

    // The same for all transitions that leave the row's state, from lo up to end.
    fn groups(
        &self,
        row: Row,
        may: StateSet,
        lo: usize,
        end: usize,
        pairs: &mut Pairs,
        p: &mut [u64; MOST_STATES],
    ) -> usize
        requires storable { Storable self.now.table.machine row.storing may }
        requires row_bound { (row.storing < self.now.table.machine.states) × (row.top ≤ nothing) }
        requires by_index { (k : ℕ) → lo ≤ k → k < end → (k < self.now.table.machine.transitions) × ((transition_at self.now.table.list.now k).from ≡ row.storing) }
        ensures { (end ≤ result) × RowOn self.now.table.machine self.now.table.list.now row.top row.storing row.matching lo pairs.old.numbers pairs.old.marks result pairs.new.numbers pairs.new.marks }
    {
        let mut k = lo;
        // No `for`: the next letter begins where group says.
        while k < end {
            k = self.group(row, may, k, pairs, p);
        }
        k
    }

    // Lowers numbers along all moves from the pairs of the row whose number is less than top.
    pub fn row(&self, row: Row, pairs: &mut Pairs, p: &mut [u64; MOST_STATES])
        requires { (row.storing < self.now.table.machine.states) × (row.top ≤ nothing) }
        ensures { RowDone self.now.table.machine self.now.table.list.now row.top row.storing row.matching pairs.old.numbers pairs.old.marks pairs.new.numbers pairs.new.marks }
    {
        self.alone(row, pairs, p);
        let stride = self.table.machine.letters + 1;
        let lo = usize::from(self.index[row.storing * stride]);
        let end = usize::from(self.index[row.storing * stride + stride]);
        let may = self.storable(row.storing);
        self.groups(row, may, lo, end, pairs, p);
    }
}
