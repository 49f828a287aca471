// A test that a machine accepts no word: the states that are reached in each mode when letters and buffers are ignored. It may fail for
// a machine that accepts nothing.

#![tactic(auto)]

ghost use Rattle.std.specs.Prelude.{ℕ, ◌≡◌, true, List};
ghost use Rattle.fsbm.specs.Published.{fsbm_of, InLanguage};
ghost use Rattle.images.specs.Graph.{KindsOf};
ghost use Rattle.emptiness.specs.Reached.{WithNext, Moved, Apart, Changed, Passed};

use fsbm::table::Table;
use images::Kinds;
use stateset::StateSet;

// The passes after which the test gives up: more than the sets can take that grow by a state in each.
const PASSES: usize = 200;

// States in each mode.
#[derive(Clone, Copy, Debug, PartialEq, Eq)]
pub struct Reached {
    pub normal: StateSet,
    pub buffering: StateSet,
    pub emptying: StateSet,
}

// The set with q, if p is in it and the way is not barred.
fn with_next(set: StateSet, barred: bool, p: usize, q: usize) -> StateSet
    ensures { WithNext «set» barred p q result }
{
    if !barred && stateset::member(set, p) {
        stateset::add(set, q)
    } else {
        set
    }
}

// The sets with q where a transition from p to q leads there, not both of them matching states. g has the buffering states.
fn apart(g: StateSet, p: usize, q: usize, s: Reached) -> Reached
    ensures { Apart g p q s result }
{
    Reached {
        normal: with_next(s.normal, stateset::member(g, p), p, q),
        buffering: with_next(s.buffering, stateset::member(g, q), p, q),
        ..s
    }
}

// The sets with q where a transition from p to q leads there.
fn moved(kinds: Kinds, p: usize, q: usize, s: Reached) -> Reached
    ensures { Moved kinds.buffering kinds.matching p q s result }
{
    let h = kinds.matching;
    if stateset::member(h, p) && stateset::member(h, q) {
        Reached {
            emptying: with_next(s.emptying, false, p, q),
            ..s
        }
    } else {
        apart(kinds.buffering, p, q, s)
    }
}

// The sets with the states that a change of mode leads to.
fn with_changes(kinds: Kinds, s: Reached) -> Reached
    ensures { Changed kinds.buffering kinds.matching s result }
{
    let g = kinds.buffering;
    let h = kinds.matching;
    Reached {
        normal: stateset::union(s.normal, stateset::intersection(s.emptying, h)),
        buffering: stateset::union(s.buffering, stateset::intersection(s.normal, g)),
        emptying: stateset::union(s.emptying, stateset::intersection(s.buffering, h)),
    }
}

// The sets with the states that one move leads to: the changes of mode, and the transitions in turn.
fn pass(t: &Table, kinds: Kinds, s: Reached) -> Reached
    ensures { Passed t.now.list.now t.now.machine.transitions kinds.buffering kinds.matching s result }
{
    let mut all = with_changes(kinds, s);
    for k in 0..t.machine.transitions {
        let way = t.transition(k);
        all = moved(kinds, usize::from(way.from), usize::from(way.to), all);
    }
    all
}

// Whether no final state is reached in normal mode from an initial one, when letters and buffers are ignored: then no word is accepted.
// kinds has the machine's sets of states (images::kinds_of). Time: the transitions, in each pass until one adds nothing.
pub fn is_barren(t: &Table, kinds: Kinds) -> bool
    requires { KindsOf t.now.machine.marks t.now.machine.states kinds }
    ensures { result ≡ true → (w : List ℕ) → InLanguage (fsbm_of t.now.machine t.now.list.now) w → ⊥ }
{
    let mut s = Reached {
        normal: kinds.initial,
        buffering: 0,
        emptying: 0,
    };
    for _ in 0..PASSES {
        let next = pass(t, kinds, s);
        if stateset::intersection(next.normal, kinds.finals) != 0 {
            return false;
        }
        if s == next {
            return true;
        }
        s = next;
    }
    false
}
