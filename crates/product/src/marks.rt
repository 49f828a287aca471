// The marks of the product.
ghost use Rattle.std.specs.Prelude.{◌≤◌, ◌*◌, ◌≡◌};
ghost use Rattle.product.specs.Product.{pair_mark, joined_mark, joined_marks};

use fsbm::limits::MAX_STATES;
use fsbm::machine;
use fsbm::machine::{Machine, Marks};

// The mark of the pair (p, r): initial and final where both states are, buffering and matching as p.
fn pair_mark(first: &Marks, p: usize, second: &Marks, r: usize) -> u8
    ensures { result ≡ pair_mark first.now p second.now r }
{
    let initial = machine::is_initial(first, p) && machine::is_initial(second, r);
    let accepts = machine::is_final(first, p) && machine::is_final(second, r);
    let buffering = machine::is_buffering(first, p);
    let matching = machine::is_matching(first, p);
    u8::from(initial) + u8::from(accepts) * 2 + u8::from(buffering) * 4 + u8::from(matching) * 8
}

// The mark of state q of the product; 0 past its last state.
fn joined_mark(first: Machine, second: Machine, q: usize) -> u8
    requires states_bound { first.states * second.states ≤ 64 }
    requires le_states { 1 ≤ second.states }
    ensures { result ≡ joined_mark first second q }
{
    if first.states * second.states <= q {
        return 0;
    }
    pair_mark(
        &first.marks,
        q / second.states,
        &second.marks,
        q % second.states,
    )
}

// The marks of all 64 states.
pub fn joined_marks(first: Machine, second: Machine) -> Marks
    requires states_bound { first.states * second.states ≤ 64 }
    requires le_states { 1 ≤ second.states }
    ensures { result ≡ joined_marks first second }
{
    let mut marks = [0; MAX_STATES];
    for (q, mark) in marks.iter_mut().enumerate() {
        *mark = joined_mark(first, second, q);
    }
    marks
}
