// The public call accept_words: a list of words, the table tested and prepared once. The letters of all words stand one after another in
// one slice, and the ends say where each word ends; the first begins at 0, each other where the one before it ends.
ghost use Rattle.fsbm.specs.Answers.{count_values};
ghost use Rattle.std.specs.Prelude.{◌≤◌, ◌≡◌, true, length};
ghost use Rattle.basics.specs.Lists.{put};
ghost use Rattle.fsbm.specs.Machine.{well_formed};
ghost use Rattle.accepts.specs.Ready.{Ready, Working};
ghost use Rattle.accepts.specs.Words.{answer_byte, answers_from, good_ends, words_answer, words_after, words_values};

use crate::prepared;
use fsbm::answer::Refusal;
use fsbm::limits::POSITIONS;
use fsbm::machine;
use fsbm::machine::Machine;
use images::Kinds;
use stateset::StateSet;
use subsets::{ROWS, STEPS};
use targets::MOST_SETS;

// The byte of an answer: 1 yes, 0 no, else the refusal's number.
fn byte_of(decided: Result<bool, Refusal>) -> u8
    ensures { result ≡ answer_byte decided }
{
    match decided {
        Ok(true) => 1,
        Ok(false) => 0,
        Err(refusal) => refusal.number(),
    }
}

// Whether no end is below the one before it, the first not below 0, and none above the number of letters.
fn are_good(letters: usize, ends: &[usize]) -> bool
    ensures { result ≡ good_ends letters 0 ends.now }
{
    let mut from = 0;
    for end in ends {
        if *end < from {
            return false;
        }
        if letters < *end {
            return false;
        }
        from = *end;
    }
    true
}

// Writes the answer to each word to the front of answers, over a table that was made ready.
fn answer_each(
    m: Machine,
    list: &[u16],
    targets: &[StateSet],
    kinds: Kinds,
    rows: &mut [StateSet],
    steps: &mut [u16],
    sets: &mut [StateSet; POSITIONS],
    letters: &[u8],
    ends: &[usize],
    answers: &mut [u8],
)
    requires { Ready m list.now targets.now kinds × Working m targets.now kinds rows.old steps.old sets.old
        × (good_ends (length letters.now) 0 ends.now ≡ true) × (length ends.now ≤ length answers.old) }
    ensures { answers.new ≡ put 0 answers.old (answers_from m list.now letters.now 0 ends.now) }
{
    let mut from = 0;
    for (k, end) in ends.iter().enumerate() {
        let word = &letters[from..*end];
        let decided = prepared::accepts_next(m, list, targets, kinds, rows, steps, sets, word);
        answers[k] = byte_of(decided);
        from = *end;
    }
}

// The same, with nothing kept so far.
fn answer_prepared(
    m: Machine,
    list: &[u16],
    targets: &[StateSet],
    kinds: Kinds,
    letters: &[u8],
    ends: &[usize],
    answers: &mut [u8],
)
    requires { Ready m list.now targets.now kinds × (good_ends (length letters.now) 0 ends.now ≡ true) × (length ends.now ≤ length answers.old) }
    ensures { answers.new ≡ put 0 answers.old (answers_from m list.now letters.now 0 ends.now) }
{
    let mut rows: [StateSet; ROWS] = [0; ROWS];
    rows[0] = 1;
    let mut steps: [u16; STEPS] = [0; STEPS];
    let mut sets: [StateSet; POSITIONS] = [0; POSITIONS];
    answer_each(
        m, list, targets, kinds, &mut rows, &mut steps, &mut sets, letters, ends, answers,
    );
}

// Makes the table ready once, and writes the answer to each word to the front of answers.
fn answer_all(m: Machine, list: &[u16], letters: &[u8], ends: &[usize], answers: &mut [u8])
    requires { (well_formed m list.now ≡ true) × (good_ends (length letters.now) 0 ends.now ≡ true) × (length ends.now ≤ length answers.old) }
    ensures { answers.new ≡ put 0 answers.old (answers_from m list.now letters.now 0 ends.now) }
{
    let mut targets: [StateSet; MOST_SETS] = [0; MOST_SETS];
    let kinds = prepared::prepare(m, list, &mut targets);
    answer_prepared(m, list, &targets, kinds, letters, ends, answers);
}

// Whether the machine accepts each word of a list. On success a byte for each word stands at the front of answers: 1 yes, 0 no, or the
// number of the word's own refusal, 9 (more than 255 letters) or 8 (a letter that is not there), in this order; what stands past them is
// as it was. Letters past the last end are not looked at. It refuses 16 (the record and its list break the rules of a table), 34 (an
// end is below the one before it, or above the number of letters), 35 (answers shorter than the number of words, which is the length
// needed), in this order; a refusal leaves answers as it was.
// Time: the transitions once and the closure of each state; then for each word its letters once and the sets of states reached at each
// position (decide::positions). Memory: on the stack, no heap; see docs/PERFORMANCE.md.
pub fn accept_words(
    m: Machine,
    list: &[u16],
    letters: &[u8],
    ends: &[usize],
    answers: &mut [u8],
) -> Result<usize, Refusal>
    ensures { (result ≡ words_answer m list.now letters.now ends.now (length answers.old))
        × (count_values result ≡ words_values m list.now letters.now ends.now (length answers.old))
        × (answers.new ≡ words_after m list.now letters.now ends.now answers.old) }
{
    if !machine::is_well_formed(m, list) {
        return Err(Refusal::BadTable);
    }
    if !are_good(letters.len(), ends) {
        return Err(Refusal::BadEnds);
    }
    let count = ends.len();
    if answers.len() < count {
        return Err(Refusal::ShortAnswers(count));
    }
    answer_all(m, list, letters, ends, answers);
    Ok(count)
}
