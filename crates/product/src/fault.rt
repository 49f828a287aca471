// The refusals of two tables that are joined, and the number of joined transitions.
ghost use Rattle.std.specs.Prelude.{ℕ, ◌*◌, ◌≤◌, ◌<◌, ◌≡◌, get_or};
ghost use Rattle.fsbm.specs.Answers.{unless};
ghost use Rattle.product.specs.Each.{sum_over};
ghost use Rattle.product.specs.Product.{plain_state, plain, letter_count, joined_count, join_fault};

use fsbm::answer::Refusal;
use fsbm::limits::{MAX_STATES, MAX_TRANSITIONS};
use fsbm::machine;
use fsbm::machine::{Machine, Marks};
use fsbm::table::Table;

// A number for each letter: more than any machine has, and 0.
const LETTERS: usize = 256;

// Whether state q is neither buffering nor matching.
fn plain_state(marks: &Marks, q: usize) -> bool
    ensures { result ≡ plain_state marks.now q }
{
    !machine::is_buffering(marks, q) && !machine::is_matching(marks, q)
}

// Whether a machine is plain: no buffering or matching state, no epsilon transition.
// Time: the states and the transitions, each once.
fn is_plain(t: &Table) -> bool
    ensures { result ≡ plain t.now.machine t.now.list.now }
{
    (0..t.machine.states).all(|q| plain_state(&t.machine.marks, q))
        && (0..t.machine.transitions).all(|k| t.transition(k).letter != 0)
}

// For each letter how many transitions have it.
fn tally(t: &Table) -> [usize; LETTERS]
    ensures { (x : ℕ) → x < 256 → get_or result x 0 ≡ letter_count t.now.list.now t.now.machine.transitions x }
{
    let mut counts = [0; LETTERS];
    for k in 0..t.machine.transitions {
        let x = usize::from(t.transition(k).letter);
        counts[x] += 1;
    }
    counts
}

// The sum of the products of two counts, for each letter from 1 to letters.
fn sum_products(a: &[usize; LETTERS], b: &[usize; LETTERS], letters: usize) -> usize
    requires letters_bound { letters ≤ 250 }
    requires by_index { (x : ℕ) → x < 256 → (get_or a.now x 0 ≤ 4000) × (get_or b.now x 0 ≤ 4000) }
    ensures value { result ≡ sum_over 1 letters (λ x. get_or a.now x 0 * get_or b.now x 0) }
    ensures upper_bound { result ≤ letters * 16000000 }
{
    let mut total = 0;
    for x in 1..letters + 1 {
        total += a[x] * b[x];
    }
    total
}

// The number of joined transitions: (epsilon transitions of the first) × (states of the second), plus for each letter the product
// of the two counts.
// Time: each table once.
fn count_joined(first: &Table, second: &Table) -> usize
    ensures { result ≡ joined_count first.now.machine first.now.list.now second.now.machine second.now.list.now }
{
    let a = tally(first);
    let b = tally(second);
    let total = sum_products(&a, &b, first.machine.letters);
    a[0] * second.machine.states + total
}

// The number of joined transitions, or the first refusal of two tables that are joined: 16 (a record and its list break the rules of a
// table, the first or the second), 10 (the second is not plain), 11 (the letter counts differ), 12 (more than 64 states), 13 (more than
// 4,000 transitions).
// Time: each table once. Memory: 8 KB.
pub fn first_fault(
    first: Machine,
    first_list: &[u16],
    second: Machine,
    second_list: &[u16],
) -> Result<usize, Refusal>
    ensures { result
        ≡ unless (join_fault first first_list.now second second_list.now) (Ok (joined_count first first_list.now second second_list.now)) }
{
    let one = Table::new(first, first_list).ok_or(Refusal::BadTable)?;
    let two = Table::new(second, second_list).ok_or(Refusal::BadTable)?;
    if !is_plain(&two) {
        return Err(Refusal::NotPlain);
    }
    if first.letters != second.letters {
        return Err(Refusal::LettersDiffer);
    }
    if MAX_STATES < first.states * second.states {
        return Err(Refusal::ManyStates);
    }
    let transitions = count_joined(&one, &two);
    if MAX_TRANSITIONS < transitions {
        return Err(Refusal::ManyTransitions);
    }
    Ok(transitions)
}
