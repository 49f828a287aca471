// From the run of a product to the runs of its machines. Transition numbers are looked up by what the transition is.
ghost use Rattle.split.specs.Split.{FirstReady, FirstPart, SecondReady, SecondPart, Joined, Split};

use crate::lookup;
use fsbm::config::BEGIN_BUFFERING;
use fsbm::machine;
use fsbm::table::Table;

// The first machine's entry for entry e of the product with a machine of n states: its own transition, or the change of mode as it is.
fn first_part(first: &Table, list: &[u16], n: u16, e: u16) -> u16
    requires { FirstReady first.now.machine first.now.list.now list.now n e }
    ensures { FirstPart first.now.machine first.now.list.now list.now n e result }
{
    if BEGIN_BUFFERING <= e {
        return e;
    }
    let t = machine::transition_at(list, usize::from(e));
    lookup::lookup(first, t.from / n, t.letter, t.to / n)
}

// Puts the second machine's entry for entry e of the product, if it moves by a letter, before place p. Returns the place of the first
// entry that is written.
fn second_part(second: &Table, list: &[u16], n: u16, e: u16, p: usize, other: &mut [u16]) -> usize
    requires { SecondReady second.now.machine second.now.list.now list.now n e p other.old }
    ensures { SecondPart second.now.machine second.now.list.now list.now n e p other.old result other.new }
{
    if BEGIN_BUFFERING <= e {
        return p;
    }
    let t = machine::transition_at(list, usize::from(e));
    if t.letter == 0 {
        return p;
    }
    let r = p - 1;
    other[r] = lookup::lookup(second, t.from % n, t.letter, t.to % n);
    r
}

// Takes a run of the product of two machines apart. The first machine's run replaces it; the second's has one entry more than the run
// has moves by a letter, and that is the length of the slice.
// Time: the run times the logarithms of the two numbers of transitions.
pub fn split(first: &Table, second: &Table, list: &[u16], run: &mut [u16], other: &mut [u16])
    requires { Joined first.now.machine first.now.list.now second.now.machine second.now.list.now list.now run.old other.old }
    ensures { Split first.now.machine first.now.list.now second.now.machine second.now.list.now list.now run.old run.new other.new }
{
    let n = second.machine.states as u16;
    let mut p = other.len();
    for k in (1..run.len()).rev() {
        let e = run[k];
        run[k] = first_part(first, list, n, e);
        p = second_part(second, list, n, e, p, other);
    }
    let q = run[0];
    run[0] = q / n;
    other[0] = q % n;
}
