// The states that runs reach at each position of a word in normal mode, copies followed start by start, and whether a machine accepts a
// word.
ghost use Rattle.std.specs.Prelude.{ℕ, ◌+◌, ◌^◌, ◌≤◌, ◌<◌, ◌≡◌, true, List, length, get_or};
ghost use Rattle.std.specs.Int.Bits.{bit_and};
ghost use Rattle.fsbm.specs.Accepted.{accepted};
ghost use Rattle.stateset.specs.Set.{width};
ghost use Rattle.images.specs.Graph.{Fitting, Graph, graph, KindsOf};
ghost use Rattle.images.specs.Moves.{graph_of};
ghost use Rattle.subsets.specs.Rows.{Kept};
ghost use Rattle.subsets.specs.Memo.{Holds, SamePlaces};
ghost use Rattle.targets.specs.Prepared.{Prepared};
ghost use Rattle.decide.specs.NormalSets.{NormalSets, Empty};
ghost use Rattle.decide.specs.Reach.{Rooms, LastSquare, Copied, Passed, Stage};
ghost use Rattle.decide.specs.Squares.{RepeatEnds};

use crate::walks::Tail;
use crate::{squares, walks};
use fsbm::config::Mode;
use fsbm::limits::POSITIONS;
use fsbm::table::Table;
use images::{Kinds, Targets};
use stateset::StateSet;
use subsets::{Memo, Subset};

// The numbers that are lent where nothing is kept of the subset construction.
const NO_ROWS: usize = 1;

// The reached set of each position of a word, one for each position 0 to 255, and whether a state of the last is final: no before that is
// known.
#[derive(Clone, Copy, Debug, PartialEq, Eq)]
pub struct Reached {
    pub sets: [StateSet; POSITIONS],
    pub accepted: bool,
}

// Adds to the sets what the copies of at least one letter reach that begin at position i in the buffering states of near; last ends the
// first half of the longest square there.
// Time: one step of a set for each letter up to last, and one for each letter that is read for a matching half. All matching halves
// read the letters from i on: where the same states turn to matching as did last, the matching half goes on from where the last ended.
fn copies_from(
    t: &Targets,
    memo: &mut Memo,
    word: &[u8],
    ends: &mut [u8; POSITIONS],
    sets: &mut [StateSet; POSITIONS],
    i: usize,
    near: Subset,
    last: usize,
)
    requires { Rooms t.now.sets.now t.now.states word.now × (i ≤ length word.now) × (length word.now ≤ 255) × RepeatEnds word.now ends.old (λ d. i + d) × Fitting 256 sets.old × LastSquare word.now i last × (near.set < 2 ^ width)
        × Holds (graph_of t.now) memo.old }
    ensures { RepeatEnds word.now ends.new (λ d. i + d) × Fitting 256 sets.new
        × Copied (graph_of t.now) word.now i (bit_and near.set t.now.buffering) sets.old sets.new
        × Holds (graph_of t.now) memo.new × SamePlaces memo.old memo.new }
{
    let mut s = memo.begin(t, Mode::Buffering, near);
    let mut tail = Tail {
        ready: 0,
        position: i,
        reached: Subset { set: 0, row: 0 },
    };
    for at in i..last {
        if s.set == 0 {
            return;
        }
        s = memo.read(t, Mode::Buffering, s, word[at]);
        let j = at + 1;
        let ready = squares::turning(t.matching, word, ends, i, j, s.set);
        if ready == 0 {
            continue;
        }
        tail = walks::tail_to(t, memo, word, i, j, s, ready, tail);
        let e = j + (j - i);
        sets[e] = stateset::union(sets[e], tail.reached.set);
    }
}

// Completes the set of position i and adds what it reaches at later positions. The hint is any subset: where it is of this position's set,
// its row need not be looked for. Answers what was read, a hint for the next position.
fn pass_position(
    t: &Targets,
    memo: &mut Memo,
    word: &[u8],
    ends: &mut [u8; POSITIONS],
    sets: &mut [StateSet; POSITIONS],
    i: usize,
    hint: Subset,
) -> Subset
    requires { Rooms t.now.sets.now t.now.states word.now × (i ≤ length word.now) × (length word.now ≤ 255) × RepeatEnds word.now ends.old (λ d. i + d) × Fitting 256 sets.old
        × Holds (graph_of t.now) memo.old }
    ensures { RepeatEnds word.now ends.new (λ d. i + d) × Fitting 256 sets.new
        × Passed (graph_of t.now) word.now sets.old sets.new i
        × Holds (graph_of t.now) memo.new × SamePlaces memo.old memo.new }
{
    let reached = sets[i];
    if reached == 0 {
        sets[i] = 0;
        return Subset::default();
    }
    let seeds = memo.with_row(reached, hint);
    let near = memo.begin(t, Mode::Normal, seeds);
    sets[i] = near.set;
    if word.len() <= i {
        return near;
    }
    let read = memo.read(t, Mode::Normal, near, word[i]);
    let k = i + 1;
    sets[k] = stateset::union(sets[k], read.set);
    let starts = stateset::intersection(near.set, t.buffering);
    if starts == 0 {
        return read;
    }
    let last = squares::last_square(word, ends, i);
    if last <= i {
        return read;
    }
    copies_from(t, memo, word, ends, sets, i, near, last);
    read
}

// The sets at the start of a word: the initial states at position 0.
pub fn start_at(initial: StateSet) -> Reached
    ensures { (G : Graph) (w : List ℕ) → Stage G w initial result.sets 0 }
{
    let mut sets: [StateSet; POSITIONS] = [0; POSITIONS];
    sets[0] = initial;
    Reached {
        sets,
        accepted: false,
    }
}

// Completes the sets of all positions of a word, from those at its start.
pub fn reach_all(t: &Targets, memo: &mut Memo, word: &[u8], sets: &mut [StateSet; POSITIONS])
    requires { Rooms t.now.sets.now t.now.states word.now × (length word.now ≤ 255) × Fitting 256 sets.old
        × Holds (graph_of t.now) memo.old }
    ensures { ((q : ℕ) → Stage (graph_of t.now) word.now q sets.old 0
        → Stage (graph_of t.now) word.now q sets.new (length word.now + 1))
        × Holds (graph_of t.now) memo.new × SamePlaces memo.old memo.new }
{
    let mut ends: [u8; POSITIONS] = [0; POSITIONS];
    let mut hint = Subset::default();
    for i in 0..=word.len() {
        hint = pass_position(t, memo, word, &mut ends, sets, i, hint);
    }
}

// Whether a machine accepts a word of at most 255 letters, and the states that runs reach at each position of the word in normal mode. The
// caller has tested that the record and its list obey the rules of a table, and the word, and has prepared the table of targets for it:
// this is a seam between crates. The list is not read; it stands here for what the answer is about.
// Time: for a word of n letters one step of a set for each position, which looks up each of its states. Copies are followed start by
// start, one such step for each letter of the longest square from a start, and for each square with which storing ends one for each
// letter of its matching half, those not counted again that the square before it has read from the same states. Finding the squares
// compares at most n² letters in all.
// Memory: the 256 sets (2 KB) and 256 bytes.
pub fn decide(t: &Table, targets: &[StateSet], kinds: Kinds, word: &[u8]) -> Reached
    requires { (length word.now ≤ 255) × Prepared t.now.machine t.now.list.now word.now targets.now × KindsOf t.now.machine.marks t.now.machine.states kinds }
    ensures { (result.accepted ≡ accepted t.now.machine t.now.list.now word.now) × NormalSets t.now.machine t.now.list.now word.now result.sets }
{
    let m = &t.machine;
    let mut rows: [StateSet; NO_ROWS] = [1; NO_ROWS];
    let mut steps: [u16; NO_ROWS] = [0; NO_ROWS];
    let mut memo = Memo {
        columns: subsets::columns_for(m.letters),
        rows: &mut rows,
        steps: &mut steps,
    };
    let moves = Targets::new(targets, m.states, kinds.buffering, kinds.matching);
    let mut r = start_at(kinds.initial);
    reach_all(&moves, &mut memo, word, &mut r.sets);
    let shared = stateset::intersection(r.sets[word.len()], kinds.finals);
    r.accepted = shared != 0;
    r
}

// Empties the sets of the positions up to n.
fn clear(sets: &mut [StateSet; POSITIONS], n: usize)
    requires { (n ≤ 255) × (length sets.old ≡ 256) }
    ensures { (length sets.new ≡ 256) × ((k : ℕ) → k ≤ n → get_or sets.new k 0 ≡ 0) × ((k : ℕ) → n < k → get_or sets.new k 0 ≡ get_or sets.old k 0) }
{
    sets[..=n].fill(0);
}

// Whether a machine accepts a word, as decide, for one word of many: what the subset construction has found is kept in rows and steps for
// the next, and the sets that are lent are empty before and after.
pub fn decide_next(
    t: &Table,
    targets: &[StateSet],
    kinds: Kinds,
    rows: &mut [StateSet],
    steps: &mut [u16],
    sets: &mut [StateSet; POSITIONS],
    word: &[u8],
) -> bool
    requires { (length word.now ≤ 255) × Prepared t.now.machine t.now.list.now word.now targets.now × KindsOf t.now.machine.marks t.now.machine.states kinds
        × Kept (graph targets.now t.now.machine.states kinds.buffering kinds.matching) (t.now.machine.letters + 2) rows.old steps.old × Empty sets.old }
    ensures { (result ≡ accepted t.now.machine t.now.list.now word.now)
        × Kept (graph targets.now t.now.machine.states kinds.buffering kinds.matching) (t.now.machine.letters + 2) rows.new steps.new × Empty sets.new }
{
    let m = &t.machine;
    let mut memo = Memo {
        columns: subsets::columns_for(m.letters),
        rows,
        steps,
    };
    let moves = Targets::new(targets, m.states, kinds.buffering, kinds.matching);
    sets[0] = kinds.initial;
    reach_all(&moves, &mut memo, word, sets);
    let shared = stateset::intersection(sets[word.len()], kinds.finals);
    clear(sets, word.len());
    shared != 0
}
