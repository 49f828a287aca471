// The public call reach.
ghost use Rattle.fsbm.specs.Answers.{count_values};
ghost use Rattle.std.specs.Prelude.{◌+◌, ◌≤◌, ◌≡◌, [], ◌∷◌, length, get_or};
ghost use Rattle.basics.specs.Each.{each_below};
ghost use Rattle.basics.specs.Lists.{put};
ghost use Rattle.fsbm.specs.Answers.{longest_recognized, table_and_word};
ghost use Rattle.images.specs.Graph.{graph, KindsOf};
ghost use Rattle.subsets.specs.Rows.{Kept};
ghost use Rattle.targets.specs.Prepared.{Prepared};
ghost use Rattle.reach.specs.Reaching.{sets_before, sets_needed, reached_sets, reach_answer, reach_after, reach_values};

use crate::copies;
use decide::positions;
use decide::positions::Reached;
use fsbm::answer;
use fsbm::answer::Refusal;
use fsbm::limits::{LONGEST_WORD, POSITIONS};
use fsbm::machine::Machine;
use fsbm::table::Table;
use images::{Kinds, Targets};
use stateset::StateSet;
use subsets::{Memo, ROWS, STEPS};
use targets::MOST_SETS;

// The modes of a configuration: normal, storing, matching.
const MODES: usize = 3;

// The numbers that a set of states takes in a slice.
const SET_SIZE: usize = 1;

// How many numbers the sets of the first p positions take.
fn sets_before(p: usize) -> usize
    requires { p ≤ 256 }
    ensures { result ≡ sets_before p }
{
    MODES * SET_SIZE * p
}

// Writes the three sets of each position up to n to the front of sets.
fn put_sets(
    normal: &[StateSet; POSITIONS],
    storing: &[StateSet; POSITIONS],
    matching: &[StateSet; POSITIONS],
    n: usize,
    sets: &mut [StateSet],
)
    requires { (n ≤ 255) × (sets_before (n + 1) ≤ length sets.old) × (length normal.now ≡ 256) × (length storing.now ≡ 256) × (length matching.now ≡ 256) }
    ensures { sets.new ≡ put 0 sets.old (each_below (n + 1) (λ p. get_or normal.now p 0 ∷ get_or storing.now p 0 ∷ get_or matching.now p 0 ∷ [])) }
{
    let positions = n + 1;
    for p in 0..positions {
        let at = sets_before(p);
        sets[at] = normal[p];
        sets[at + 1] = storing[p];
        sets[at + 2] = matching[p];
    }
}

// Writes the sets to the front of the slice, over a table that was prepared for the word.
fn reach_with(
    m: Machine,
    list: &[u16],
    targets: &[StateSet],
    kinds: Kinds,
    rows: &mut [StateSet],
    steps: &mut [u16],
    word: &[u8],
    sets: &mut [StateSet],
)
    requires { (table_and_word longest_recognized m list.now word.now ≡ 0) × (sets_needed word.now ≤ length sets.old) × Prepared m list.now word.now targets.now × KindsOf m.marks m.states kinds
        × Kept (graph targets.now m.states kinds.buffering kinds.matching) (m.letters + 2) rows.old steps.old }
    ensures { sets.new ≡ put 0 sets.old (reached_sets m list.now word.now) }
{
    let t = Targets::new(targets, m.states, kinds.buffering, kinds.matching);
    let mut memo = Memo {
        columns: subsets::columns_for(m.letters),
        rows,
        steps,
    };
    let mut normal: Reached = positions::start_at(kinds.initial);
    positions::reach_all(&t, &mut memo, word, &mut normal.sets);
    let mut storing: [StateSet; POSITIONS] = [0; POSITIONS];
    let mut matching: [StateSet; POSITIONS] = [0; POSITIONS];
    copies::copies(
        &t,
        &mut memo,
        word,
        &normal.sets,
        &mut storing,
        &mut matching,
    );
    put_sets(&normal.sets, &storing, &matching, word.len(), sets);
}

// The same, with nothing kept so far of the subset construction.
fn reach_prepared(
    m: Machine,
    list: &[u16],
    targets: &[StateSet],
    kinds: Kinds,
    word: &[u8],
    sets: &mut [StateSet],
)
    requires { (table_and_word longest_recognized m list.now word.now ≡ 0) × (sets_needed word.now ≤ length sets.old) × Prepared m list.now word.now targets.now × KindsOf m.marks m.states kinds }
    ensures { sets.new ≡ put 0 sets.old (reached_sets m list.now word.now) }
{
    let mut rows: [StateSet; ROWS] = [0; ROWS];
    rows[0] = 1;
    let mut steps: [u16; STEPS] = [0; STEPS];
    reach_with(m, list, targets, kinds, &mut rows, &mut steps, word, sets);
}

// The same, with a table that is prepared here.
fn reach_all(m: Machine, list: &[u16], word: &[u8], sets: &mut [StateSet])
    requires { (table_and_word longest_recognized m list.now word.now ≡ 0) × (sets_needed word.now ≤ length sets.old) }
    ensures { sets.new ≡ put 0 sets.old (reached_sets m list.now word.now) }
{
    let mut targets: [StateSet; MOST_SETS] = [0; MOST_SETS];
    let kinds = images::kinds_of(&m.marks, m.states);
    let t = Table { machine: m, list };
    targets::prepare_for(&t, word, &mut targets);
    reach_prepared(m, list, &targets, kinds, word, sets);
}

// The states that the runs on a word reach. On success three sets of states for each position from 0 to the word's end stand at the front
// of sets, one number each: those that some run from an initial state reaches there in normal mode, while storing, and while matching,
// whatever is in its buffer. The answer holds how many these are; what stands past them is as it was. So the word is accepted exactly
// if the first of the last three has a final state. It refuses 16 (the record and its list break the rules of a table), 9 (a word of
// more than 255 letters), 8 (a letter that is not there), 36 (sets shorter than 3 × (letters + 1), which is the length needed), in this
// order; a refusal leaves sets as it was.
// Time: the transitions once, the sets reached in normal mode (decide::positions), and then for each start and each end of what a copy
// stores one step of a set and one for each letter that stands again behind that end. Memory: on the stack, no heap; see
// docs/PERFORMANCE.md.
pub fn reach(m: Machine, list: &[u16], word: &[u8], sets: &mut [StateSet]) -> Result<usize, Refusal>
    ensures { (result ≡ reach_answer m list.now word.now (length sets.old))
        × (count_values result ≡ reach_values m list.now word.now (length sets.old))
        × (sets.new ≡ reach_after m list.now word.now sets.old) }
{
    answer::table_and_word(LONGEST_WORD, m, list, word)?;
    let needed = sets_before(word.len() + 1);
    if sets.len() < needed {
        return Err(Refusal::ShortSets(needed));
    }
    reach_all(m, list, word, sets);
    Ok(needed)
}
