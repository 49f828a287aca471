// The machine as a record and a lent list of transitions, and the rules that both obey.
ghost use Rattle.std.specs.Prelude.{ℕ, ◌+◌, ◌*◌, ◌<◌, ◌≤◌, ◌≡◌, cond, ◌↔◌, get_or, length, eqb};
ghost use Rattle.basics.specs.Search.{all_below};
ghost use Rattle.fsbm.specs.Machine.{mark_of, initial, final, buffering, matching, both_matching, transition_at};
ghost use Rattle.fsbm.specs.Machine.{max_states, good_mark, named, good_transition, well_formed};
ghost use Rattle.fsbm.specs.declared.machine.Machine.{Machine};

use crate::limits::{MAX_LETTERS, MAX_STATES, MAX_TRANSITIONS};

// For each state a sum of 1 (initial), 2 (final), 4 (buffering) and 8 (matching); 0 past the last state.
pub type Marks = [u8; MAX_STATES];

// A finite-state buffered machine without its transitions, which stand in a lent list (document 01: a table's record).
#[repr(C)]
#[derive(Clone, Copy)]
pub struct Machine {
    // States are numbered from 0.
    pub states: usize,
    // Letters are numbered from 1; 0 in a transition is epsilon.
    pub letters: usize,
    pub transitions: usize,
    pub marks: Marks,
}

// One transition of the lent list.
#[derive(Clone, Copy)]
pub struct Transition {
    pub from: u16,
    pub letter: u16,
    pub to: u16,
}

// The mark of state q; 0 where q is no state of any machine.
pub fn mark(marks: &Marks, q: usize) -> u8
    ensures { result ≡ mark_of marks.now q }
{
    match marks.get(q) {
        Some(v) => *v,
        None => 0,
    }
}

// Whether a run may start in state q.
pub fn is_initial(marks: &Marks, q: usize) -> bool
    ensures { result ≡ initial marks.now q }
{
    mark(marks, q) % 2 == 1
}

// Whether a run may end in state q.
pub fn is_final(marks: &Marks, q: usize) -> bool
    ensures { result ≡ final marks.now q }
{
    mark(marks, q) / 2 % 2 == 1
}

// Whether storing begins in state q.
pub fn is_buffering(marks: &Marks, q: usize) -> bool
    ensures { result ≡ buffering marks.now q }
{
    mark(marks, q) / 4 % 2 == 1
}

// Whether state q matches stored letters.
pub fn is_matching(marks: &Marks, q: usize) -> bool
    ensures { result ≡ matching marks.now q }
{
    mark(marks, q) / 8 % 2 == 1
}

// Whether both ends of a transition are matching states: such a transition is taken only in emptying mode.
pub fn both_matching(marks: &Marks, t: Transition) -> bool
    ensures { result ≡ both_matching marks.now t }
{
    is_matching(marks, t.from as usize) && is_matching(marks, t.to as usize)
}

// The element of a lent list at i; 0 past its end.
fn element(list: &[u16], i: usize) -> u16
    ensures { result ≡ get_or list.now i 0 }
{
    match list.get(i) {
        Some(x) => *x,
        None => 0,
    }
}

// Transition number k of a lent list; what stands past the end of the list counts as 0.
pub fn transition_at(list: &[u16], k: usize) -> Transition
    ensures { result ≡ transition_at list.now k }
{
    if list.len() <= k {
        return Transition {
            from: 0,
            letter: 0,
            to: 0,
        };
    }
    let i = k * 3;
    Transition {
        from: element(list, i),
        letter: element(list, i + 1),
        to: element(list, i + 2),
    }
}

// The least number of states with which state q may have the mark v: none is needed for mark 0.
fn states_for(q: u8, v: u8) -> u8
    requires { q < 64 }
    ensures { result ≡ cond (eqb v 0) 0 (q + 1) }
{
    if v == 0 {
        return 0;
    }
    q + 1
}

// Whether the marks of all 64 states obey the rules: at most 15, never buffering and matching together (so at most 11), 0 past the
// last state. The loop has no early exit, so that many marks can be tested at once.
fn good_marks(states: usize, marks: &Marks) -> bool
    ensures { (m : Machine) → m.states ≡ states → m.marks ≡ marks.now → result ≡ all_below max_states (good_mark m) }
{
    let mut largest: u8 = 0;
    let mut needed: u8 = 0;
    for q in 0..MAX_STATES {
        let v = marks[q];
        largest = largest.max(v);
        needed = needed.max(states_for(q as u8, v));
    }
    largest <= 11 && needed as usize <= states
}

// Whether the states and the letter that a transition names are there.
fn is_named(states: usize, letters: usize, t: Transition) -> bool
    ensures { result ≡ named states letters t }
{
    (t.from as usize) < states && t.letter as usize <= letters && (t.to as usize) < states
}

// A number that is the smaller the earlier a transition comes: by from, then letter, then to. One comparison of it stands for the three of a
// derived order, in the loop that every call on a table goes through.
fn rank(t: Transition) -> u64
    ensures { result ≡ (t.from * 65536 + t.letter) * 65536 + t.to }
{
    (t.from as u64 * 65536 + t.letter as u64) * 65536 + t.to as u64
}

// Transition number k of a lent list that has it.
pub fn present_transition(list: &[u16], k: usize) -> Transition
    requires { k * 3 + 3 ≤ length list.now }
    ensures { result ≡ transition_at list.now k }
{
    let i = k * 3;
    Transition {
        from: list[i],
        letter: list[i + 1],
        to: list[i + 2],
    }
}

// Whether the first n transitions of a lent list name only what is there and rise strictly.
fn good_transitions(states: usize, letters: usize, list: &[u16], n: usize) -> bool
    requires { n * 3 ≤ length list.now }
    ensures { result ≡ all_below n (good_transition states letters list.now) }
{
    let mut least: u64 = 0;
    for k in 0..n {
        let t = present_transition(list, k);
        if !is_named(states, letters, t) {
            return false;
        }
        let here = rank(t);
        if here < least {
            return false;
        }
        least = here + 1;
    }
    true
}

// Whether a record and its lent list obey the rules of a table, test by test: as one row of && the search for its proof gave up. What stands in the list past the record's count is not looked at.
// Time: the states and the transitions, each once.
pub fn is_well_formed(m: Machine, list: &[u16]) -> bool
    ensures { result ≡ well_formed m list.now }
{
    if m.states < 1 {
        return false;
    }
    if MAX_STATES < m.states {
        return false;
    }
    if MAX_LETTERS < m.letters {
        return false;
    }
    if MAX_TRANSITIONS < m.transitions {
        return false;
    }
    if list.len() < m.transitions * 3 {
        return false;
    }
    if !good_marks(m.states, &m.marks) {
        return false;
    }
    good_transitions(m.states, m.letters, list, m.transitions)
}
