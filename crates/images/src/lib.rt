// Images and closures of sets of states under the transitions that a mode may take.
//
// targets  a table of where the transitions of each letter lead from each state, and the functions on sets that look it up
//
// Here: the sets of the states of each kind.

#![tactic(auto)]

mod targets;

ghost use Rattle.std.specs.Prelude.{◌+◌, ◌/◌, ◌%◌, ◌^◌, ◌≤◌, ◌<◌, ◌≡◌, true, ◌⊎◌, eqb};
ghost use Rattle.stateset.specs.Set.{width, In};
ghost use Rattle.images.specs.Graph.{Members, KindsOf};

use fsbm::machine;
use fsbm::machine::Marks;
use stateset::StateSet;
pub use targets::Targets;

// The set with q if yes, else the set.
pub fn add_if(set: StateSet, q: usize, yes: bool) -> StateSet
    ensures { Members result (λ p. In set p ⊎ ((p ≡ q) × (p < width) × (yes ≡ true))) }
{
    if yes { stateset::add(set, q) } else { set }
}

// The set with q where its mark has this bit: 0 initial, 1 final, 2 buffering, 3 matching.
fn add_marked(set: StateSet, q: usize, mark: u8, bit: usize) -> StateSet
    requires { bit < 4 }
    ensures { Members result (λ p. In set p ⊎ ((p ≡ q) × (p < width) × (eqb (mark / 2 ^ bit % 2) 1 ≡ true))) }
{
    add_if(set, q, (mark >> bit) % 2 == 1)
}

// The states of each kind.
#[derive(Clone, Copy, Debug, Default, PartialEq, Eq)]
pub struct Kinds {
    pub initial: StateSet,
    pub finals: StateSet,
    pub buffering: StateSet,
    pub matching: StateSet,
}

// The states of each kind by their marks. Time: the states, each once.
pub fn kinds_of(marks: &Marks, states: usize) -> Kinds
    requires { states ≤ width }
    ensures { KindsOf marks.now states result }
{
    let mut kinds = Kinds::default();
    for q in 0..states {
        let mark = machine::mark(marks, q);
        kinds.initial = add_marked(kinds.initial, q, mark, 0);
        kinds.finals = add_marked(kinds.finals, q, mark, 1);
        kinds.buffering = add_marked(kinds.buffering, q, mark, 2);
        kinds.matching = add_marked(kinds.matching, q, mark, 3);
    }
    kinds
}
