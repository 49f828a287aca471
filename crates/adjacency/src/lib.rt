// An index of a machine's transitions by the state that they leave. The list rises by from, then letter, then to, so the
// transitions of a state stand together, and in them those of a letter.
//
// Adjacency  where the transitions of each state begin
// index      the index of a table, in one pass over its list
// seek       the first transition of a stretch that leaves no state below a state

#![tactic(auto)]

ghost use Rattle.std.specs.Prelude.{◌≤◌};
ghost use Rattle.adjacency.specs.Index.{Index, Sought};

use fsbm::table::Table;

// A number for each state of the largest machine, and one for the end.
pub const FIRSTS: usize = 65;

// first[q] is the number of transitions that leave a state below q, for each q up to the number of states: those that leave q
// are numbered from first[q] up to, not including, first[q + 1].
#[derive(Clone, Copy, Debug, PartialEq, Eq)]
pub struct Adjacency {
    pub first: [u16; FIRSTS],
}

// The first transition from k on that leaves no state below q; the number of transitions where there is none.
fn seek(t: &Table, k: usize, q: usize) -> usize
    requires { k ≤ t.now.machine.transitions }
    ensures { Sought t.now.list.now 0 k t.now.machine.transitions q result }
{
    for r in k..t.machine.transitions {
        if q <= usize::from(t.transition(r).from) {
            return r;
        }
    }
    t.machine.transitions
}

// The index of a table's list.
// Time: the states and the transitions, each once.
#[tactic(auto, using(fsbm::specs::Rules::rules))]
pub fn index(t: &Table) -> Adjacency
    ensures { Index t.now.machine t.now.list.now result.first }
{
    let mut first = [0; FIRSTS];
    let mut k = 0;
    for q in 0..t.machine.states + 1 {
        k = seek(t, k, q);
        first[q] = k as u16;
    }
    Adjacency { first }
}
