// Transition numbers are found by looking a triple up in the rising list.
ghost use Rattle.std.specs.Prelude.{ℕ, ◌-◌, ◌≤◌, ◌<◌, ◌≡◌, true, false};
ghost use Rattle.fsbm.specs.Published.{Listed};
ghost use Rattle.product.specs.Tables.{order};
ghost use Rattle.pieces.specs.Written.{Takes};

use fsbm::machine::Transition;
use fsbm::table::Table;

// The transition as one number: transitions compare as these numbers do.
fn order(t: Transition) -> u32
    ensures { result ≡ order t }
{
    (u32::from(t.from) * 256 + u32::from(t.letter)) * 64 + u32::from(t.to)
}

// Where the test, which holds at the numbers below some place and fails from there up to n, first fails; n where it holds everywhere.
// Of any test it tells the two answers beside that place. Time: the logarithm of n calls.
fn partition_point<F: Fn(usize) -> bool>(n: usize, test: F) -> usize
    requires { (k : ℕ) → k < n → F.pre test k }
    ensures within { result ≤ n }
    ensures holds { 0 < result → F.post test (result - 1) true }
    ensures fails { result < n → F.post test result false }
{
    let mut lo = 0;
    let mut hi = n;
    // No range: the places that are left are halved.
    while lo < hi {
        let middle = lo + (hi - lo) / 2;
        if test(middle) {
            lo = middle + 1;
        } else {
            hi = middle;
        }
    }
    lo
}

// The number of the transition from p by x to q, which the machine has.
// Time: the logarithm of the number of transitions.
pub fn lookup(t: &Table, p: u16, x: u16, q: u16) -> u16
    requires { Listed t.now.list.now t.now.machine.transitions p x q }
    ensures { Takes t.now.machine t.now.list.now result p x q }
{
    let wanted = order(Transition {
        from: p,
        letter: x,
        to: q,
    });
    let past = partition_point(t.machine.transitions, |k| order(t.transition(k)) <= wanted);
    (past - 1) as u16
}
