// The public call accepts: one word.
ghost use Rattle.std.specs.Prelude.{◌≤◌, ◌≡◌};
ghost use Rattle.fsbm.specs.Accepted.{accepted};
ghost use Rattle.fsbm.specs.Answers.{longest_recognized, table_and_word};
ghost use Rattle.images.specs.Graph.{set_of};
ghost use Rattle.accepts.specs.Decision.{decision, decided_values, decision_values};

use crate::prepared;
use fsbm::answer;
use fsbm::answer::Refusal;
use fsbm::limits::LONGEST_WORD;
use fsbm::machine::Machine;
use fsbm::table::Table;
use stateset::StateSet;
use targets::{MEDIUM, MOST_SETS, SMALL};

// Whether the machine accepts a word that is not refused, with a table of as many sets as this machine needs: a smaller one is cleared
// sooner.
fn accepts_within<const SETS: usize>(m: Machine, list: &[u16], word: &[u8]) -> bool
    requires { (table_and_word longest_recognized m list.now word.now ≡ 0) × (set_of m.states m.letters m.states ≤ SETS) × (SETS ≤ 16130) }
    ensures { result ≡ accepted m list.now word.now }
{
    let mut targets: [StateSet; SETS] = [0; SETS];
    let kinds = images::kinds_of(&m.marks, m.states);
    prepared::reach(m, list, &mut targets, kinds, word).accepted
}

// Whether the machine accepts the word, yes or no. It refuses 16 (the record and its list break the rules of a table), 9 (a word of more
// than 255 letters), 8 (a letter that is not there), in this order.
// Time: the transitions once, and the sets of states reached at each position (decide::positions). Memory: on the stack, no heap; see
// docs/PERFORMANCE.md.
pub fn accepts(m: Machine, list: &[u16], word: &[u8]) -> Result<bool, Refusal>
    ensures { (result ≡ decision m list.now word.now) × (decided_values result ≡ decision_values m list.now word.now) }
{
    answer::table_and_word(LONGEST_WORD, m, list, word)?;
    let t = Table { machine: m, list };
    let sets = targets::sets_of(&t);
    if sets <= SMALL {
        return Ok(accepts_within::<SMALL>(m, list, word));
    }
    if sets <= MEDIUM {
        return Ok(accepts_within::<MEDIUM>(m, list, word));
    }
    Ok(accepts_within::<MOST_SETS>(m, list, word))
}
