// The least number for each state that is reached from the states of a row, and the set of these states. The numbers stand in p, the set
// is handed on from call to call, as in a fold: one struct of both is no plainer, since p is room that the whole block lends.
ghost use Rattle.std.specs.Prelude.{ℕ, ◌+◌, ◌*◌, ◌≤◌, ◌<◌, ◌≡◌, length, get_or};
ghost use Rattle.stateset.specs.Set.{In};
ghost use Rattle.pieces.specs.Blocks.{nothing};
ghost use Rattle.blocks.specs.Gathered.{Adding, Pick, Reach, Far, From, Near, Stay};

use crate::numbers::Row;
use crate::searched::Searched;
use crate::sizes::{MOST_PAIRS, MOST_STATES};
use stateset::StateSet;

// Notes v for t in p, where t is a member of may and has no number yet or a larger one; the states that have a number then.
fn pick(may: StateSet, p: &mut [u64; MOST_STATES], got: StateSet, t: usize, v: u64) -> StateSet
    ensures { Adding (Pick may t v) p.old got p.new result }
{
    if !stateset::member(may, t) {
        return got;
    }
    if !stateset::member(got, t) {
        p[t] = v;
        return stateset::add(got, t);
    }
    if v < p[t] {
        p[t] = v;
    }
    got
}

// The same for each state that a transition of lo, .., hi - 1 enters.
fn reach(
    list: &[u16],
    lo: usize,
    hi: usize,
    may: StateSet,
    p: &mut [u64; MOST_STATES],
    got: StateSet,
    v: u64,
) -> StateSet
    requires { hi * 3 ≤ length list.now }
    ensures { Adding (Reach list.now lo hi may v) p.old got p.new result }
{
    let mut all = got;
    for k in lo..hi {
        all = pick(may, p, all, usize::from(list[k * 3 + 2]), v);
    }
    all
}

impl<'a> Searched<'a> {
    // The same for each matching state that a transition of the key `base` enters, with v + w for v, if v is less than top.
    fn far(
        &self,
        base: usize,
        p: &mut [u64; MOST_STATES],
        got: StateSet,
        v: u64,
        w: u64,
        top: u64,
    ) -> StateSet
        requires base_bound { (base < 16064) × (get_or self.now.index.now (base + 1) 0 * 3 ≤ length self.now.table.list.now) }
        requires w_bound { (w ≤ 8589934594) × (top ≤ nothing) }
        ensures { Adding (Far self.now.table.list.now self.now.index.now top base self.now.kinds.matching v w) p.old got p.new result }
    {
        if top <= v {
            return got;
        }
        let lo = usize::from(self.index[base]);
        let hi = usize::from(self.index[base + 1]);
        reach(self.table.list, lo, hi, self.kinds.matching, p, got, v + w)
    }

    // For each matching state that a transition by the letter x enters from a matching state of the row: the least number in the row of
    // such a state, of those less than top, and w more. The states that have a number then.
    pub fn gather(
        &self,
        x: usize,
        w: u64,
        row: Row,
        b: &[u64; MOST_PAIRS],
        p: &mut [u64; MOST_STATES],
    ) -> StateSet
        requires x_bound { (x ≤ self.now.table.machine.letters) × (w ≤ 8589934594) }
        requires row_bound { (row.storing < 64) × (row.top ≤ nothing) }
        ensures { Adding (From self.now.table.list.now self.now.index.now row.top (self.now.table.machine.letters + 1) x w self.now.kinds.matching b.now row.storing (λ q. In row.matching q × In self.now.kinds.matching q)) p.old 0 p.new result }
    {
        let stride = self.table.machine.letters + 1;
        let held = stateset::intersection(row.matching, self.readers[x]);
        let mut got = stateset::empty();
        for t in stateset::members(held) {
            got = self.far(t * stride + x, p, got, b[row.storing * 64 + t], w, row.top);
        }
        got
    }
}

// Notes v + 1 for t in p, as pick does, if v is less than top.
fn near(
    may: StateSet,
    p: &mut [u64; MOST_STATES],
    got: StateSet,
    t: usize,
    v: u64,
    top: u64,
) -> StateSet
    requires { top ≤ nothing }
    ensures { Adding (Near top may t v) p.old got p.new result }
{
    if top <= v {
        return got;
    }
    pick(may, p, got, t, v + 1)
}

// For each state of the row: its number in it, if it is less than top, and 1 more. The states that have a number then.
pub fn stay(row: Row, b: &[u64; MOST_PAIRS], p: &mut [u64; MOST_STATES]) -> StateSet
    requires { (row.storing < 64) × (row.top ≤ nothing) }
    ensures { Adding (Stay row.top b.now row.storing (In row.matching)) p.old 0 p.new result }
{
    let mut got = stateset::empty();
    for t in stateset::members(row.matching) {
        got = near(row.matching, p, got, t, b[row.storing * 64 + t], row.top);
    }
    got
}
