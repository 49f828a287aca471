// Turns of normal moves and of copies, until nothing is lowered any more.
//
// ends      the states where storing can end
// costs     the least weights from a start
ghost use Rattle.std.specs.Prelude.{ℕ, ◌+◌, ◌*◌, ◌≤◌, ◌<◌, ◌≡◌, true};
ghost use Rattle.stateset.specs.Set.{In, has};
ghost use Rattle.fsbm.specs.Machine.{buffering, matching};
ghost use Rattle.pieces.specs.Blocks.{nothing, cost_of};
ghost use Rattle.blocks.specs.Works.{Kind};
ghost use Rattle.blocks.specs.Settling.{Past};
ghost use Rattle.least.specs.Falls.{Falls, End, CopyEnds};
ghost use Rattle.least.specs.Turns.{Entered, EnteredBy, NormalTurn, Lowered, Tops, Guessed, CopyTurn, First, first_of, Costs};

use crate::fall;
use blocks::numbers::Pairs;
use blocks::searched::Searched;
use blocks::sizes::{MOST_PAIRS, MOST_STATES, NOTHING};
use fsbm::machine;
use fsbm::machine::Marks;
use fsbm::table::Table;
use stateset::StateSet;

// The least weight from a start to each state in normal mode, or NOTHING, and for each state a guess with which a copy reaches this
// weight, if there is one.
#[derive(Drop)]
pub struct Weights {
    pub least: [u64; MOST_STATES],
    pub guesses: Marks,
}

// The first number of q: 0 where it is initial, else NOTHING.
#[tactic(auto, unfolding(crate::specs::Turns::first_of))]
fn first(initial: StateSet, q: usize) -> u64
    ensures { result ≡ first_of (has initial q) }
{
    if stateset::member(initial, q) {
        0
    } else {
        NOTHING
    }
}

// The set with the state that transition k enters, if that is a matching state and transition k does not leave one. h has the matching
// states.
fn with_entered(table: &Table, k: usize, h: StateSet, set: StateSet) -> StateSet
    requires { k < table.now.machine.transitions }
    ensures { EnteredBy table.now.list.now k h «set» result }
{
    let t = table.transition(k);
    let to = usize::from(t.to);
    if !stateset::member(h, to) || stateset::member(h, usize::from(t.from)) {
        return set;
    }
    stateset::add(set, to)
}

// The matching states that some transition enters that does not leave a matching state. h has the matching states.
// Time: the transitions, each once.
pub fn ends(table: &Table, h: StateSet) -> StateSet
    requires { Kind (matching table.now.machine.marks) h }
    ensures { Entered table.now.machine table.now.list.now result }
{
    let mut set = stateset::empty();
    for k in 0..table.machine.transitions {
        set = with_entered(table, k, h, set);
    }
    set
}

// A turn of normal moves from the fresh states, until no number is lowered any more; the states that were fresh or were lowered.
fn normal_turn(searched: &Searched, d: &mut [u64; MOST_STATES], fresh: StateSet) -> StateSet
    ensures { NormalTurn searched.now.table.machine searched.now.table.list.now d.old fresh d.new result }
{
    let mut started = stateset::empty();
    let mut rest = fresh;
    // No loop over stateset::members: the set grows while it is gone through.
    while rest != 0 {
        let q = stateset::lowest(rest) as usize;
        rest = stateset::without_lowest(rest);
        started = stateset::add(started, q);
        rest = fall::normal(searched, q, d, rest);
    }
    started
}

// The largest number of a member of h, or the limit where that is less.
fn largest(h: StateSet, d: &[u64; MOST_STATES], limit: u64) -> u64
    requires { limit ≤ nothing }
    ensures { Tops limit h d.now result }
{
    let mut most: u64 = 0;
    for z in stateset::members(h) {
        most = most.max(d[z]);
    }
    most.min(limit)
}

// Lowers the number of z to v + 2 and adds z to the set, where that is less and v is less than top; the set then.
fn end(d: &mut [u64; MOST_STATES], got: StateSet, z: usize, v: u64, top: u64) -> StateSet
    requires { (z < 64) × (top ≤ nothing) }
    ensures { Falls (End top z v) (End top z v) d.old got d.new result }
{
    if top <= v {
        return got;
    }
    fall::fall(d, got, z, v + 2)
}

// The limit, or one more than the number of the final state f, where that is less.
fn lower_limit(marks: &Marks, d: &[u64; MOST_STATES], f: usize, limit: u64) -> u64
    requires { f < 64 }
    ensures { Lowered marks.now d.now limit result }
{
    if !machine::is_final(marks, f) {
        return limit;
    }
    limit.min(d[f].saturating_add(1))
}

// The limit, or one more than the least number of a final state, where that is less: no copy of a larger number leads to a shorter word.
fn lowered(marks: &Marks, d: &[u64; MOST_STATES], limit: u64) -> u64
    ensures { Lowered marks.now d.now limit result }
{
    let mut least = limit;
    for f in 0..MOST_STATES {
        least = lower_limit(marks, d, f, least);
    }
    least
}

// What a turn of copies leaves: the states that were lowered, and the limit then.
#[derive(Clone, Copy, Debug, PartialEq, Eq)]
pub struct Turned {
    pub fresh: StateSet,
    pub limit: u64,
}

impl Weights {
    // The number of a state; of none, that nothing leads there.
    #[tactic(auto, unfolding(pieces::specs::Blocks::cost_of))]
    pub fn cost(&self, q: usize) -> u64
        ensures { result ≡ cost_of self.now.least q }
    {
        self.least.get(q).copied().unwrap_or(NOTHING)
    }

    // Notes the guess for z, where the number of z is reached along a copy with it: v is the number of the copy's last pair. Of the notes
    // nothing is promised.
    fn note(&mut self, guess: u8, z: usize, v: u64)
        requires { z < 64 }
        ensures { self.new.least ≡ self.old.least }
    {
        if v < NOTHING && self.least[z] == v + 2 {
            self.guesses[z] = guess;
        }
    }

    // The same as end for each matching state, with its number in row guess of the block for v. h has the matching states. The guess is
    // noted for each state whose number is reached so.
    fn end_all(
        &mut self,
        b: &[u64; MOST_PAIRS],
        guess: usize,
        h: StateSet,
        got: StateSet,
        top: u64,
    ) -> StateSet
        requires { (guess < 64) × (top ≤ nothing) }
        ensures { Falls (CopyEnds top b.now guess (In h)) (CopyEnds top b.now guess (In h)) self.old.least got self.new.least result }
    {
        let mut all = got;
        for z in stateset::members(h) {
            let v = b[guess * 64 + z];
            all = end(&mut self.least, all, z, v, top);
            self.note(guess as u8, z, v);
        }
        all
    }

    // The copies of one guess that begin in a state of the set. A copy of a larger number than all matching states have lowers none of
    // them.
    fn guessed(
        &mut self,
        searched: &Searched,
        guess: usize,
        set: StateSet,
        pairs: &mut Pairs,
        got: StateSet,
        limit: u64,
    ) -> StateSet
        requires { Past searched.now.table.machine pairs.old.numbers × (guess < 64) × (limit ≤ nothing) }
        ensures { Guessed searched.now.table.machine searched.now.table.list.now limit searched.now.kinds.matching guess «set» self.old.least got self.new.least result pairs.new.numbers }
    {
        let h = searched.kinds.matching;
        let top = largest(h, &self.least, limit);
        searched.block_by(guess, set, &self.least, pairs, top);
        self.end_all(&pairs.numbers, guess, h, got, top)
    }

    // A turn of copies that begin in a state of the set, all of them buffering states. storing has the states where storing can end. The
    // limit is lowered before each guess.
    fn copies(
        &mut self,
        searched: &Searched,
        storing: StateSet,
        set: StateSet,
        pairs: &mut Pairs,
        first: u64,
    ) -> Turned
        requires past { Past searched.now.table.machine pairs.old.numbers × (first ≤ nothing) }
        requires entered { Entered searched.now.table.machine searched.now.table.list.now storing × ((q : ℕ) → In «set» q → buffering searched.now.table.machine.marks q ≡ true) }
        ensures { Past searched.now.table.machine pairs.new.numbers × CopyTurn searched.now.table.machine searched.now.table.list.now first «set» self.old.least self.new.least result.fresh result.limit }
    {
        let mut got = stateset::empty();
        let mut limit = first;
        for guess in stateset::members(storing) {
            limit = lowered(&searched.table.machine.marks, &self.least, limit);
            got = self.guessed(searched, guess, set, pairs, got, limit);
        }
        Turned { fresh: got, limit }
    }

    // The first numbers of all states, and no guess.
    fn start(initial: StateSet) -> Weights
        ensures { First initial result.least }
    {
        let mut least = [0; MOST_STATES];
        for (q, number) in least.iter_mut().enumerate() {
            *number = first(initial, q);
        }
        Weights {
            least,
            guesses: [0; MOST_STATES],
        }
    }

    // The turns from the first numbers on.
    fn turns(&mut self, searched: &Searched, storing: StateSet, pairs: &mut Pairs)
        requires first { First searched.now.kinds.initial self.old.least × Past searched.now.table.machine pairs.old.numbers }
        requires entered { Entered searched.now.table.machine searched.now.table.list.now storing }
        ensures { Past searched.now.table.machine pairs.new.numbers × Costs searched.now.table.machine searched.now.table.list.now self.new.least }
    {
        let mut fresh = searched.kinds.initial;
        let mut limit = NOTHING;
        // A `loop`: the test stands in the middle, after the normal moves.
        loop {
            let started = normal_turn(searched, &mut self.least, fresh);
            let set = stateset::intersection(started, searched.kinds.buffering);
            if set == 0 {
                return;
            }
            let turned = self.copies(searched, storing, set, pairs, limit);
            fresh = turned.fresh;
            limit = turned.limit;
        }
    }
}

// The least weight from a start to each state in normal mode, or NOTHING: letters × 2^32 + moves. They are known as far as the least one of a
// final state; larger numbers may stand above the least weight. pairs is a block in which nothing stands past the last state. Beside a
// state's number stands a guess with which a copy reaches it, if there is one; of it nothing is promised.
// Time: the normal moves, as often as a number is lowered; and in each turn of copies a block for each state where storing can end.
pub fn costs(searched: &Searched, pairs: &mut Pairs) -> Weights
    requires { Past searched.now.table.machine pairs.old.numbers }
    ensures { Past searched.now.table.machine pairs.new.numbers × Costs searched.now.table.machine searched.now.table.list.now result.least }
{
    let mut weights = Weights::start(searched.kinds.initial);
    let storing = ends(&searched.table, searched.kinds.matching);
    weights.turns(searched, storing, pairs);
    weights
}
