// The answer to a word over a table that was tested and prepared before. The functions ask what a public call above them has tested:
// they are seams between crates.
ghost use Rattle.std.specs.Prelude.{ℕ, ◌≤◌, ◌≡◌, true, length, get_or};
ghost use Rattle.fsbm.specs.Machine.{well_formed};
ghost use Rattle.fsbm.specs.Accepted.{accepted};
ghost use Rattle.fsbm.specs.Answers.{longest_recognized, table_and_word};
ghost use Rattle.images.specs.Graph.{set_of, KindsOf};
ghost use Rattle.targets.specs.Prepared.{Prepared};
ghost use Rattle.decide.specs.NormalSets.{NormalSets};
ghost use Rattle.accepts.specs.Decision.{decision};
ghost use Rattle.accepts.specs.Ready.{Ready, Working};

use decide::positions;
use decide::positions::Reached;
use fsbm::answer;
use fsbm::answer::Refusal;
use fsbm::limits::{LONGEST_WORD, POSITIONS};
use fsbm::machine::Machine;
use fsbm::table::Table;
use images::Kinds;
use stateset::StateSet;

// The states that runs reach, and whether the word is accepted, with a table of zeros lent that is prepared for the word.
pub fn reach(
    m: Machine,
    list: &[u16],
    targets: &mut [StateSet],
    kinds: Kinds,
    word: &[u8],
) -> Reached
    requires { (table_and_word longest_recognized m list.now word.now ≡ 0) × (set_of m.states m.letters m.states ≤ length targets.old)
        × ((i : ℕ) → get_or targets.old i 0 ≡ 0) × KindsOf m.marks m.states kinds }
    ensures { (result.accepted ≡ accepted m list.now word.now) × NormalSets m list.now word.now result.sets
        × Prepared m list.now word.now targets.new }
{
    let t = Table { machine: m, list };
    targets::prepare_for(&t, word, targets);
    positions::decide(&t, &*targets, kinds, word)
}

// Makes a table of zeros ready for every word of the machine's letters, and answers its states by kind.
// Time and memory: those of targets::prepare.
pub fn prepare(m: Machine, list: &[u16], targets: &mut [StateSet]) -> Kinds
    requires { (well_formed m list.now ≡ true) × (set_of m.states m.letters m.states ≤ length targets.old) × ((i : ℕ) → get_or targets.old i 0 ≡ 0) }
    ensures { Ready m list.now targets.new result }
{
    let kinds = images::kinds_of(&m.marks, m.states);
    let t = Table { machine: m, list };
    targets::prepare(&t, kinds, targets);
    kinds
}

// Whether the machine accepts the word, over a table that was made ready for all its words: what accepts answers, without a test of
// the table. It refuses 9 (more than 255 letters) and 8 (a letter that is not there), in this order. What the subset construction has
// found is kept in rows and steps for the next word (crate subsets), and the sets that are lent are empty before and after.
// Time: the word once, and the time of the decision. Memory: what is lent, and that of the decision.
pub fn accepts_next(
    m: Machine,
    list: &[u16],
    targets: &[StateSet],
    kinds: Kinds,
    rows: &mut [StateSet],
    steps: &mut [u16],
    sets: &mut [StateSet; POSITIONS],
    word: &[u8],
) -> Result<bool, Refusal>
    requires { Ready m list.now targets.now kinds × Working m targets.now kinds rows.old steps.old sets.old }
    ensures { (result ≡ decision m list.now word.now) × Working m targets.now kinds rows.new steps.new sets.new }
{
    answer::word_fault(LONGEST_WORD, m.letters, word)?;
    let t = Table { machine: m, list };
    Ok(positions::decide_next(&t, targets, kinds, rows, steps, sets, word))
}
