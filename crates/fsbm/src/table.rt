// A machine together with its lent list, once both are known to obey the rules of a table: what every call below the tests is told of.
ghost use Rattle.std.specs.Prelude.{◌≡◌, ◌<◌, true, false, MatchOption};
ghost use Rattle.fsbm.specs.Machine.{well_formed, transition_at};

use crate::machine;
use crate::machine::{Machine, Transition};

// A machine and its list of transitions, which obey the rules of a table.
#[derive(Clone, Copy)]
pub struct Table<'a> {
    pub machine: Machine,
    pub list: &'a [u16],
    ghost obeys: { well_formed machine list.now ≡ true },
}

impl<'a> Table<'a> {
    // The table of a record and its list, or none where they break the rules (refusal 16).
    // Time: the states and the transitions, each once.
    pub fn new(machine: Machine, list: &'a [u16]) -> Option<Table<'a>>
        ensures { MatchOption result (well_formed machine list.now ≡ false) (λ t. (t.machine ≡ machine) × (t.list.now ≡ list.now)) }
    {
        if machine::is_well_formed(machine, list) {
            return Some(Table { machine, list });
        }
        None
    }

    // Transition number k.
    pub fn transition(&self, k: usize) -> Transition
        requires { k < self.now.machine.transitions }
        ensures { result ≡ transition_at self.now.list.now k }
    {
        machine::present_transition(self.list, k)
    }
}
