// Recognition with a run: whether a machine accepts a word, and an accepting run of it.

#![tactic(auto)]

ghost use Rattle.std.specs.Prelude.{◌≤◌, ◌≡◌, length, Ok};
ghost use Rattle.fsbm.specs.Accepted.{run_bound};
ghost use Rattle.fsbm.specs.Answers.{longest_recognized, table_and_word};
ghost use Rattle.images.specs.Graph.{set_of};
ghost use Rattle.recognize.specs.Recognition.{Recognition};

use accepts::prepared;
use fsbm::answer;
use fsbm::answer::Refusal;
use fsbm::limits::LONGEST_WORD;
use fsbm::machine::Machine;
use fsbm::table::Table;
use runs::walk;
use stateset::StateSet;
use targets::{MEDIUM, MOST_SETS, SMALL};

// The number of entries of an accepting run, written to the front of the slice, or that there is none, for input that is not refused,
// with a table of as many sets as this machine needs: a smaller one is cleared sooner.
fn recognize_within<const SETS: usize>(
    m: Machine,
    list: &[u16],
    word: &[u8],
    run: &mut [u16],
) -> Option<usize>
    requires { (table_and_word longest_recognized m list.now word.now ≡ 0) × (run_bound m (length word.now) ≤ length run.old)
        × (set_of m.states m.letters m.states ≤ SETS) × (SETS ≤ 16130) }
    ensures { Recognition m list.now word.now run.old run.new (Ok result) }
{
    let mut targets: [StateSet; SETS] = [0; SETS];
    let kinds = images::kinds_of(&m.marks, m.states);
    let reached = prepared::reach(m, list, &mut targets, kinds, word);
    if !reached.accepted {
        return None;
    }
    let t = Table { machine: m, list };
    Some(walk::write_run(&t, &targets, kinds, word, &reached, run))
}

// Whether the machine accepts the word; on yes an accepting run of it stands at the front of run, and the answer holds its number of
// entries, the start state counted as one. Which accepting run is left open. On no and on a refusal run is as it was, and so is on yes
// what stands past the run. It refuses 16 (the record and its list break the rules of a table), 9 (a word of more than 255 letters),
// 8 (a letter that is not there), 17 (run shorter than 3 × states × (letters + 1), which is the length needed), in this order, before
// the answer is known.
// Time: the transitions once, and the sets of states reached at each position (decide::positions); on yes also the fewest entries to
// acceptance along them (runs::walk). Memory: on the stack, no heap; see docs/PERFORMANCE.md.
pub fn recognize(
    m: Machine,
    list: &[u16],
    word: &[u8],
    run: &mut [u16],
) -> Result<Option<usize>, Refusal>
    ensures { Recognition m list.now word.now run.old run.new result }
{
    answer::table_and_word(LONGEST_WORD, m, list, word)?;
    let needed = 3 * m.states * (word.len() + 1);
    let room = run.len();
    if room < needed {
        return Err(Refusal::ShortRun(needed));
    }
    let t = Table { machine: m, list };
    let sets = targets::sets_of(&t);
    if sets <= SMALL {
        return Ok(recognize_within::<SMALL>(m, list, word, run));
    }
    if sets <= MEDIUM {
        return Ok(recognize_within::<MEDIUM>(m, list, word, run));
    }
    Ok(recognize_within::<MOST_SETS>(m, list, word, run))
}
