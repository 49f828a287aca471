// The run checker.
ghost use Rattle.std.specs.Prelude.{◌≡◌, true, length};
ghost use Rattle.fsbm.specs.Moves.{well_placed, accepting_from, accepting};
ghost use Rattle.fsbm.specs.Answers.{check_answer, checked_values, check_values};

use crate::answer::Refusal;
use crate::config::Config;
use crate::limits::LONGEST_CHECKED;
use crate::machine::Machine;
use crate::table::Table;
use crate::{answer, machine};

// Whether the entries of a run after its first one lead from a configuration to an accepting one.
fn accepts_from(t: &Table, word: &[u8], first: Config, entries: &[u16]) -> bool
    requires { well_placed t.now.machine.states (length word.now) first ≡ true }
    ensures { result ≡ accepting_from t.now.machine t.now.list.now word.now first entries.now }
{
    let marks = &t.machine.marks;
    let mut c = first;
    for entry in entries {
        let k = *entry as usize;
        if t.machine.transitions <= k {
            let v = c.change_mode(marks, *entry);
            if !v.allowed {
                return false;
            }
            c = v.config;
        } else {
            let s = t.transition(k);
            if !c.may_take(marks, word, s) {
                return false;
            }
            c = c.after(s);
        }
    }
    c.is_accepting(marks, word.len())
}

// Whether a written run accepts a word.
// Time: the run once. Memory: none beside its arguments.
pub fn is_accepting_run(t: &Table, word: &[u8], run: &[u16]) -> bool
    ensures { result ≡ accepting t.now.machine t.now.list.now word.now run.now }
{
    let [first, entries @ ..] = run else {
        return false;
    };
    let q = *first as usize;
    if t.machine.states <= q {
        return false;
    }
    machine::is_initial(&t.machine.marks, q) && accepts_from(t, word, Config::start_at(q), entries)
}

// The public call for a whole run: accepting or not. It refuses 16 (the record and its list break the rules of a table), 9 (a word
// of more than 1,048,576 letters), 8 (a letter that is not there), in this order; no run is refused.
// Time: the table, the word and the run, each once. Memory: none beside its arguments.
pub fn check_run(m: Machine, list: &[u16], word: &[u8], run: &[u16]) -> Result<bool, Refusal>
    ensures { (result ≡ check_answer m list.now word.now run.now) × (checked_values result ≡ check_values m list.now word.now run.now) }
{
    answer::table_and_word(LONGEST_CHECKED, m, list, word)?;
    let t = Table { machine: m, list };
    Ok(is_accepting_run(&t, word, run))
}
