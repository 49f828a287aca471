// The final state with the least number.
ghost use Rattle.std.specs.Prelude.{◌+◌, ◌<◌};
ghost use Rattle.found.specs.Best.{Best};

use blocks::sizes::{MOST_STATES, NOTHING};
use fsbm::machine;
use fsbm::machine::Marks;
use least::turns::Weights;

// Of b, the best state below q, and q the better one: q where it is final and has a lesser number.
fn better(marks: &Marks, weights: &Weights, b: Option<usize>, q: usize) -> Option<usize>
    requires { Best marks.now weights.now.least q b × (q < 64) }
    ensures { Best marks.now weights.now.least (q + 1) result }
{
    if !machine::is_final(marks, q) {
        return b;
    }
    let least = b.map_or(NOTHING, |b| weights.cost(b));
    if least <= weights.cost(q) {
        return b;
    }
    Some(q)
}

// The final state with the least number, if one has a number below 2^62.
// Time: the states once.
pub fn best(marks: &Marks, weights: &Weights) -> Option<usize>
    ensures { Best marks.now weights.now.least 64 result }
{
    let mut b = None;
    for q in 0..MOST_STATES {
        b = better(marks, weights, b, q);
    }
    b
}
