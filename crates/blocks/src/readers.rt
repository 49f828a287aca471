// The matching states that can read a letter: a set for each letter, so that other states need not be looked up.
ghost use Rattle.std.specs.Prelude.{◌<◌, ◌≡◌};
ghost use Rattle.fsbm.specs.Machine.{matching};
ghost use Rattle.blocks.specs.Works.{Kind};
ghost use Rattle.blocks.specs.Readers.{Noted, Readers};

use crate::sizes::MOST_READERS;
use fsbm::table::Table;
use stateset::StateSet;

// Adds the state that transition k leaves to the set of its letter, if both its ends are members of h.
fn note(table: &Table, k: usize, h: StateSet, sets: &mut [u64; MOST_READERS])
    requires { k < table.now.machine.transitions }
    ensures { Noted table.now.list.now k h sets.old sets.new }
{
    let t = table.transition(k);
    let from = usize::from(t.from);
    if !stateset::member(h, from) || !stateset::member(h, usize::from(t.to)) {
        return;
    }
    let x = usize::from(t.letter);
    sets[x] = stateset::add(sets[x], from);
}

// For each letter the matching states that a transition leaves by it to a matching state. h has the matching states.
// Time: the transitions, each once.
pub fn readers(table: &Table, h: StateSet) -> [u64; MOST_READERS]
    requires { Kind (matching table.now.machine.marks) h }
    ensures { Readers table.now.machine table.now.list.now result }
{
    let mut sets = [0; MOST_READERS];
    for k in 0..table.machine.transitions {
        note(table, k, h, &mut sets);
    }
    sets
}
