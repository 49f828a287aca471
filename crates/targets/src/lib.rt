// A prepared table of where transitions lead: for each letter and each state a set of states. A set is then looked up, where the list
// of transitions would have to be searched. Its first set has the states with epsilon transitions, its second the states whose closures
// it has; behind them stand the row of closures and the rows of the letters in order, letter 0 first, each with one set for each state
// of the machine.
//
// prepare      the table of a machine, for many words: the rows of all letters, and the closures of all states
// prepare_for  the same with the rows of letter 0 and of a word's letters alone, and no closures
//
// The functions ask what a public call above them has tested: they are seams between crates.

#![tactic(auto)]

ghost use Rattle.std.specs.Prelude.{ℕ, ◌+◌, ◌≤◌, ◌<◌, ◌≡◌, ◌↔◌, true, false, length, get_or};
ghost use Rattle.stateset.specs.Set.{width, In};
ghost use Rattle.images.specs.Graph.{set_of, Good, KindsOf};
ghost use Rattle.targets.specs.Prepared.{Prepared, Lettered, Whole, Wanted, Filled, Made, Sources, Closing, WithClosures};

use fsbm::table::Table;
use images::{Kinds, Targets};
use stateset::StateSet;

// The sets of the largest machine's table.
pub const MOST_SETS: usize = 16130;

// The sets of a small table: what is cleared for one word goes by the smallest size that is enough.
pub const SMALL: usize = 160;

// The sets of a medium table.
pub const MEDIUM: usize = 2048;

// How many numbers a byte can hold.
const BYTES: usize = 256;

// How many sets the table of a machine has: the first two, a closure for each state, and one for each state and letter, letter 0 among
// them.
pub fn sets_of(t: &Table) -> usize
    ensures { result ≡ set_of t.now.machine.states t.now.machine.letters t.now.machine.states }
{
    let m = &t.machine;
    2 + m.states + m.letters * m.states + m.states
}

// The letters of a word, marked.
fn letters_of(word: &[u8]) -> [bool; BYTES]
    ensures { (i : ℕ) → i < length word.now → get_or result (get_or word.now i 0) false ≡ true }
{
    let mut wanted = [false; BYTES];
    for x in word {
        wanted[usize::from(*x)] = true;
    }
    wanted
}

// Whether the table has a row for the letter x: letter 0 has one.
fn is_wanted(wanted: &[bool; BYTES], x: usize) -> bool
    requires { x < 256 }
    ensures { (result ≡ true) ↔ Wanted wanted.now x }
{
    x == 0 || wanted[x]
}

// Adds transition number k to the table of sets, where its letter is wanted.
fn put(t: &Table, wanted: &[bool; BYTES], targets: &mut [StateSet], k: usize)
    requires { (k < t.now.machine.transitions) × Filled t.now.machine t.now.list.now wanted.now targets.old k }
    ensures { Filled t.now.machine t.now.list.now wanted.now targets.new (k + 1) }
{
    let step = t.transition(k);
    let p = usize::from(step.from);
    let x = usize::from(step.letter);
    let q = usize::from(step.to);
    if !is_wanted(wanted, x) {
        return;
    }
    let at = 2 + t.machine.states + x * t.machine.states + p;
    targets[at] = stateset::add(targets[at], q);
}

// Fills the rows of the wanted letters in a table of zeros.
fn fill_rows(t: &Table, wanted: &[bool; BYTES], targets: &mut [StateSet])
    requires { (set_of t.now.machine.states t.now.machine.letters t.now.machine.states ≤ length targets.old) × ((i : ℕ) → get_or targets.old i 0 ≡ 0) }
    ensures { Filled t.now.machine t.now.list.now wanted.now targets.new t.now.machine.transitions }
{
    for k in 0..t.machine.transitions {
        put(t, wanted, targets, k);
    }
}

// The states below a number whose set in the row of letter 0 is not empty.
fn sources(targets: &[StateSet], states: usize) -> StateSet
    requires { (states ≤ width) × (2 + states + states ≤ length targets.now) }
    ensures { Sources targets.now states states result }
{
    let mut set = stateset::empty();
    for p in 0..states {
        set = images::add_if(set, p, targets[2 + states + p] != 0);
    }
    set
}

// Fills a table of zeros: the rows of the wanted letters, and as its first set the states that have epsilon transitions.
fn fill(t: &Table, wanted: &[bool; BYTES], targets: &mut [StateSet])
    requires { (set_of t.now.machine.states t.now.machine.letters t.now.machine.states ≤ length targets.old) × ((i : ℕ) → get_or targets.old i 0 ≡ 0) }
    ensures { Made t.now.machine t.now.list.now wanted.now targets.new }
{
    fill_rows(t, wanted, targets);
    let set = sources(targets, t.machine.states);
    targets[0] = set;
}

// Puts the closure of each state into a table that has none.
fn put_closures(states: usize, kinds: Kinds, targets: &mut [StateSet])
    requires { Good targets.old states kinds.buffering kinds.matching × (get_or targets.old 1 0 ≡ 0) }
    ensures { Closing states kinds.buffering kinds.matching targets.old targets.new states }
{
    for p in 0..states {
        let t = Targets::new(&*targets, states, kinds.buffering, kinds.matching);
        let alone = stateset::single(p);
        let own = t.close_position(alone);
        targets[2 + p] = own;
    }
}

// The same, and as the table's second set the states.
fn close_states(states: usize, kinds: Kinds, targets: &mut [StateSet])
    requires { Good targets.old states kinds.buffering kinds.matching × (get_or targets.old 1 0 ≡ 0) }
    ensures { WithClosures states kinds.buffering kinds.matching targets.old targets.new }
{
    put_closures(states, kinds, targets);
    targets[1] = stateset::full(states);
}

// Prepares a table of zeros for every word of the machine's letters.
// Time: the transitions and the states, each once, and the closure of each state. Memory: none but the table and 256 bytes.
pub fn prepare(t: &Table, kinds: Kinds, targets: &mut [StateSet])
    requires { (set_of t.now.machine.states t.now.machine.letters t.now.machine.states ≤ length targets.old) × ((i : ℕ) → get_or targets.old i 0 ≡ 0)
        × KindsOf t.now.machine.marks t.now.machine.states kinds }
    ensures { Whole t.now.machine t.now.list.now targets.new × ((p : ℕ) → p < t.now.machine.states → In (get_or targets.new 1 0) p) }
{
    fill(t, &[true; BYTES], targets);
    close_states(t.machine.states, kinds, targets);
}

// Prepares a table of zeros for one word: a transition whose letter does not stand in the word is passed over.
// Time: the transitions, the states and the letters of the word, each once. Memory: none but the table and 256 bytes.
pub fn prepare_for(t: &Table, word: &[u8], targets: &mut [StateSet])
    requires { Lettered t.now.machine.letters word.now × (set_of t.now.machine.states t.now.machine.letters t.now.machine.states ≤ length targets.old) × ((i : ℕ) → get_or targets.old i 0 ≡ 0) }
    ensures { Prepared t.now.machine t.now.list.now word.now targets.new }
{
    let wanted = letters_of(word);
    fill(t, &wanted, targets);
}
