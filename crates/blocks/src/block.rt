// A block: for one guess of the state where storing ends and matching begins, the least weights of the copies that have begun, as far as
// each pair of states.
//
// block_by, block   the numbers of a block, for copies that begin in a state of a set
ghost use Rattle.std.specs.Prelude.{◌+◌, ◌*◌, ◌≤◌, ◌<◌, ◌≡◌, length};
ghost use Rattle.stateset.specs.Set.{In};
ghost use Rattle.pieces.specs.Blocks.{nothing};
ghost use Rattle.blocks.specs.Numbers.{Lowers};
ghost use Rattle.blocks.specs.Settling.{Past, Begin, Begins, Worked, BlockTo, Block};

use crate::numbers::{Pairs, Row};
use crate::searched::Searched;
use crate::sizes::{MOST_STATES, NOTHING};
use stateset::StateSet;

// Lowers the number of (q, guess) to v + 1, if v is less than top.
fn begin(pairs: &mut Pairs, q: usize, guess: usize, v: u64, top: u64)
    requires { (q < 64) × (guess < 64) × (top ≤ nothing) }
    ensures { Lowers (Begin top q guess v) pairs.old.numbers pairs.old.marks pairs.new.numbers pairs.new.marks }
{
    if top <= v {
        return;
    }
    pairs.lower(q, guess, v + 1);
}

// The same for each state of a set, with its number in costs for v.
fn begin_all(pairs: &mut Pairs, set: StateSet, guess: usize, costs: &[u64; MOST_STATES], top: u64)
    requires { (guess < 64) × (top ≤ nothing) }
    ensures { Lowers (Begins top guess (In «set») costs.now) pairs.old.numbers pairs.old.marks pairs.new.numbers pairs.new.marks }
{
    for q in stateset::members(set) {
        begin(pairs, q, guess, costs[q], top);
    }
}

impl<'a> Searched<'a> {
    // Lowers the numbers of a block along the moves from its marked pairs, and those that are marked then, until there is none.
    fn work(&self, pairs: &mut Pairs, top: u64)
        requires { top ≤ nothing }
        ensures { Worked self.now.table.machine self.now.table.list.now top pairs.old.numbers pairs.old.marks pairs.new.numbers }
    {
        let mut p = [0; MOST_STATES];
        let mut last: usize = 0;
        // No range: the next row is the first one marked behind the last.
        while let Some(s) = pairs.next_row(last, self.table.machine.states) {
            let row = Row {
                storing: s,
                matching: pairs.marks[s],
                top,
            };
            pairs.marks[s] = 0;
            self.row(row, pairs, &mut p);
            last = s;
        }
    }

    // The block of the guess, for copies that begin in a buffering state of the set; costs has the least weights at which they begin.
    // Numbers of top and above are not looked at any further: they may be too large.
    // Time: for each row that is taken, as often as its numbers are lowered, its transitions and for each of them a step a state; and at
    // first 64 numbers a state.
    pub fn block_by(
        &self,
        guess: usize,
        set: StateSet,
        costs: &[u64; MOST_STATES],
        pairs: &mut Pairs,
        top: u64,
    )
        requires { Past self.now.table.machine pairs.old.numbers × (guess < 64) × (top ≤ nothing) }
        ensures { BlockTo self.now.table.machine self.now.table.list.now top guess «set» costs.now pairs.new.numbers }
    {
        let held = stateset::intersection(set, self.kinds.buffering);
        pairs.numbers[..self.table.machine.states * 64].fill(NOTHING);
        pairs.marks.fill(0);
        begin_all(pairs, held, guess, costs, top);
        self.work(pairs, top);
    }

    // The same up to NOTHING.
    pub fn block(&self, guess: usize, set: StateSet, costs: &[u64; MOST_STATES], pairs: &mut Pairs)
        requires { Past self.now.table.machine pairs.old.numbers × (guess < 64) }
        ensures { Block self.now.table.machine self.now.table.list.now guess «set» costs.now pairs.new.numbers }
    {
        self.block_by(guess, set, costs, pairs, NOTHING);
    }
}
