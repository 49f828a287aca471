// The copy list of an accepting run.
//
// list_copies   the public call: for each copy with letters the position where buffering began and the number of letters stored, and their total

#![tactic(auto)]

ghost use Rattle.std.specs.Prelude.{ℕ, ◌≤◌, ◌*◌, ◌≡◌, List, ◌++◌, length, drop};
ghost use Rattle.copies.specs.Copies.{Copy, longest_copied, pairs, total_back, copies_answer, copies_after, copied_values, copies_values};
ghost use Rattle.copies.specs.Stretches.{most_copies, passed, entry_list, entries_read};

use fsbm::answer::Refusal;
use fsbm::config::{BEGIN_BUFFERING, BEGIN_EMPTYING};
use fsbm::limits::LONGEST_WORD;
use fsbm::machine::Machine;
use fsbm::table::Table;
use fsbm::{answer, run};

// What list_copies answers: the number of copies listed, and the total of the letters that they store.
#[derive(Clone, Copy, Debug, PartialEq, Eq)]
pub struct Copied {
    pub copies: usize,
    pub total: usize,
}

// What a run has read: the position, and where it last began to buffer. While it buffers, the stretch of the word between
// the two is stored.
#[derive(Clone, Copy, Debug, PartialEq, Eq)]
struct Stretch {
    start: usize,
    position: usize,
}

impl Stretch {
    // The stretch once an entry is passed.
    fn passed(self, t: &Table, entry: u16) -> Stretch
        requires { self.position ≤ longest_copied }
        ensures { result ≡ passed t.now.machine.transitions t.now.list.now self entry }
    {
        if entry == BEGIN_BUFFERING {
            return Stretch {
                start: self.position,
                position: self.position,
            };
        }
        let k = entry as usize;
        if t.machine.transitions <= k {
            return self;
        }
        let s = t.transition(k);
        if s.letter == 0 {
            return self;
        }
        Stretch {
            start: self.start,
            position: self.position + 1,
        }
    }
}

// The number of copies with letters of a run that accepts a word of at most 255 letters. Time: the entries once.
fn count_copies(t: &Table, run: &[u16]) -> usize
    requires { entries_read t.now.machine.transitions t.now.list.now run.now ≤ longest_copied }
    ensures { result ≡ length (entry_list t.now.machine.transitions t.now.list.now run.now) }
{
    let mut s = Stretch {
        start: 0,
        position: 0,
    };
    let mut count = 0;
    for i in 1..run.len() {
        let entry = run[i];
        let start = s.start;
        let end = s.position;
        s = s.passed(t, entry);
        if entry == BEGIN_EMPTYING && start < end {
            count += 1;
        }
    }
    count
}

// Writes the copies with letters of such a run to the front of a slice that has room for them. Time: the entries once.
fn write_copies(t: &Table, run: &[u16], copies: &mut [u16])
    requires { (entries_read t.now.machine.transitions t.now.list.now run.now ≤ longest_copied)
        × (length (entry_list t.now.machine.transitions t.now.list.now run.now) * 2 ≤ length copies.old) }
    ensures { copies.new
        ≡ pairs (entry_list t.now.machine.transitions t.now.list.now run.now)
        ++ drop (length (entry_list t.now.machine.transitions t.now.list.now run.now) * 2) copies.old }
{
    let mut s = Stretch {
        start: 0,
        position: 0,
    };
    let mut k = 0;
    for i in 1..run.len() {
        let entry = run[i];
        let start = s.start;
        let stored = s.position - start;
        s = s.passed(t, entry);
        if entry == BEGIN_EMPTYING && stored != 0 {
            copies[k] = start as u16;
            copies[k + 1] = stored as u16;
            k += 2;
        }
    }
}

// The letters stored in all by the copies at the front of a slice, added up from the last copy to the first.
// Time: the copies once.
fn total_back(copies: &[u16], count: usize) -> usize
    requires { (count * 2 ≤ length copies.now) × (count ≤ most_copies) }
    ensures { (ks : List Copy) (rest : List ℕ) → copies.now ≡ pairs ks ++ rest → count ≡ length ks → result ≡ total_back ks }
{
    let mut total = 0;
    for k in (0..count).rev() {
        total += copies[k * 2 + 1] as usize;
    }
    total
}

// The public call: writes two numbers for each copy with letters of an accepting run, in the run's order: the position where
// buffering began and the number of letters stored. A copy is an entry 65,534; one of no letters is not listed. It returns the
// number of copies listed and the total of their letters, added up from the last copy to the first. It refuses 16 (the record
// and its list break the rules of a table), 9 (a word of more than 255 letters), 8 (a letter that is not there), 14 (the run does
// not accept), 20 (the slice is too short; two numbers for each copy with letters are needed), in this order. A refusal leaves
// the slice as it was; on success what stands past the copies is as it was.
// Time: the table and the word once, the run three times (it is followed once, to check it), the copies once. Memory: none
// beside its arguments.
pub fn list_copies(
    m: Machine,
    list: &[u16],
    word: &[u8],
    run: &[u16],
    copies: &mut [u16],
) -> Result<Copied, Refusal>
    ensures { (result ≡ copies_answer m list.now word.now run.now (length copies.old))
        × (copies.new ≡ copies_after m list.now word.now run.now copies.old)
        × (copied_values result ≡ copies_values m list.now word.now run.now (length copies.old)) }
{
    answer::table_and_word(LONGEST_WORD, m, list, word)?;
    let t = Table { machine: m, list };
    if !run::is_accepting_run(&t, word, run) {
        return Err(Refusal::NotAccepting);
    }
    let count = count_copies(&t, run);
    let needed = count * 2;
    if copies.len() < needed {
        return Err(Refusal::ShortCopies(needed));
    }
    write_copies(&t, run, copies);
    Ok(Copied {
        copies: count,
        total: total_back(copies, count),
    })
}
