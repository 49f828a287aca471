// The faults of the numbers of one line.
ghost use Rattle.std.specs.Prelude.{◌≡◌};
ghost use Rattle.fsbm.specs.Machine.{named};
ghost use Rattle.fsbm.specs.Answers.{passed};
ghost use Rattle.sheet.specs.Reading.{as_transition, counts_fault, mark_fault, order_after};

use fsbm::answer::Refusal;
use fsbm::limits::{MAX_LETTERS, MAX_STATES, MAX_TRANSITIONS};

// The three numbers of a transition's line, as they stand in the sheet. In their order a transition comes before another: by from,
// then letter, then to.
#[derive(Clone, Copy, Debug, PartialEq, Eq, PartialOrd, Ord)]
pub struct Line {
    pub from: usize,
    pub letter: usize,
    pub to: usize,
}

// Refuses 3, a count outside its range.
#[tactic(auto, unfolding(crate::specs::Reading::counts_fault, fsbm::specs::Answers::refusal))]
pub fn counts_fault(states: usize, letters: usize, transitions: usize) -> Result<(), Refusal>
    ensures { result ≡ passed (counts_fault states letters transitions) }
{
    if states < 1 || MAX_STATES < states || MAX_LETTERS < letters || MAX_TRANSITIONS < transitions {
        return Err(Refusal::BadCount);
    }
    Ok(())
}

// Refuses 4 where the line of state q holds another number, or a mark above 15 or with both 4 and 8.
#[tactic(auto, unfolding(crate::specs::Reading::mark_fault, fsbm::specs::Answers::refusal))]
pub fn mark_fault(q: usize, number: usize, mark: usize) -> Result<(), Refusal>
    ensures { result ≡ passed (mark_fault q number mark) }
{
    if number != q || 15 < mark || mark / 4 % 2 == 1 && mark / 8 % 2 == 1 {
        return Err(Refusal::BadState);
    }
    Ok(())
}

// Whether a transition names only states and a letter that are there.
fn is_named(states: usize, letters: usize, t: Line) -> bool
    ensures { result ≡ named states letters (as_transition t) }
{
    t.from < states && t.letter <= letters && t.to < states
}

// Refuses 5 where a transition names a state or a letter that is not there, 6 where it does not come strictly after the one before
// it, if there is one.
#[tactic(auto, unfolding(crate::specs::Reading::order_fault, crate::specs::Series::or_else, fsbm::specs::Answers::refusal))]
pub fn order_fault(
    states: usize,
    letters: usize,
    before: Option<Line>,
    t: Line,
) -> Result<(), Refusal>
    ensures { result ≡ passed (order_after states letters before t) }
{
    let named = is_named(states, letters, t);
    let rising = before.is_none_or(|before| before < t);
    if !named {
        return Err(Refusal::AbsentName);
    }
    if !rising {
        return Err(Refusal::NotRising);
    }
    Ok(())
}
