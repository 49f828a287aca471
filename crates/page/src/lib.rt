// The page of a reading: an accepting run laid out on lines, to be held beside the sheet.
//
// write_page   the public call: a line for each entry of the run, and a last line of totals

#![tactic(auto)]

ghost use Rattle.fsbm.specs.Answers.{count_values};
ghost use Rattle.std.specs.Prelude.{ℕ, ◌+◌, ◌*◌, ◌<◌, ◌≤◌, ◌≡◌, true, List, [], ◌∷◌, length};
ghost use Rattle.basics.specs.Lists.{put};
ghost use Rattle.columns.specs.Line.{line_of};
ghost use Rattle.fsbm.specs.Answers.{passed};
ghost use Rattle.fsbm.specs.Moves.{move, accepting};
ghost use Rattle.fsbm.specs.declared.config.Mode.TheVariants.{Normal, Buffering};
ghost use Rattle.copies.specs.Letters.{letters_at};
ghost use Rattle.page.specs.Page.{longest_word, longest_run, page_column, entry_numbers, page_of, page_length, page_fault, page_answer, page_after, page_values};

use fsbm::answer::Refusal;
use fsbm::config::{Config, Mode};
use fsbm::limits::LONGEST_WORD;
use fsbm::machine::Machine;
use fsbm::table::Table;
use fsbm::{answer, machine, run};

// The most entries of a run that is laid out.
const LONGEST_RUN: usize = 99999;

// The bytes of the line of an entry: five columns of six and the line's end.
const ENTRY_LENGTH: usize = 31;

// The bytes of the last line: three columns of six and the line's end.
const LAST_LENGTH: usize = 19;

// The letters that a run has read so far in normal mode, and those that it has stored.
#[derive(Clone, Copy, Debug, PartialEq, Eq)]
struct Tally {
    plain: usize,
    stored: usize,
}

impl Tally {
    // The tally once a move from one configuration to the next has read the letters between their positions.
    fn counted(self, from: Config, next: Config) -> Tally
        requires { (from.position ≤ next.position) × (self.plain ≤ from.position) × (self.stored ≤ from.position) }
        ensures { (result.plain ≡ self.plain + letters_at Normal from next) × (result.stored ≡ self.stored + letters_at Buffering from next) }
    {
        let letters = next.position - from.position;
        match from.mode {
            Mode::Normal => Tally {
                plain: self.plain + letters,
                ..self
            },
            Mode::Buffering => Tally {
                stored: self.stored + letters,
                ..self
            },
            Mode::Emptying => self,
        }
    }
}

// Where an entry leads from a configuration that it is allowed in.
fn after_entry(t: &Table, c: Config, entry: u16) -> Config
    requires { (c.position ≤ longest_word) × (c.start ≤ c.end) × (c.end ≤ c.position) }
    ensures { (w : List ℕ) → (move t.now.machine t.now.list.now w c entry).allowed ≡ true → result ≡ (move t.now.machine t.now.list.now w c entry).config }
{
    let k = usize::from(entry);
    if t.machine.transitions <= k {
        return c.change_mode(&t.machine.marks, entry).config;
    }
    c.after(t.transition(k))
}

// The line of entry i, after which the run is in this configuration, written from byte at on.
fn write_entry(page: &mut [u8], at: usize, i: usize, c: Config)
    requires { (at + 31 ≤ length page.old) × (i < longest_run) × (c.state < 100) × (c.position ≤ longest_word) × (c.start ≤ c.end) × (c.end ≤ c.position) }
    ensures { page.new ≡ put at page.old (line_of page_column (entry_numbers i c)) }
{
    columns::write::<6, 5>(page, at, i as u32);
    columns::write::<6, 2>(page, at + 6, c.state as u32);
    columns::write::<6, 1>(page, at + 12, u32::from(c.mode.number()));
    columns::write::<6, 3>(page, at + 18, c.position as u32);
    columns::write::<6, 3>(page, at + 24, (c.end - c.start) as u32);
    page[at + 30] = b'\n';
}

// The last line, written from byte at on: letters read in normal mode, letters stored, and the word's length.
fn write_last(page: &mut [u8], at: usize, t: Tally, letters: usize)
    requires { (at + 19 ≤ length page.old) × (t.plain ≤ longest_word) × (t.stored ≤ longest_word) × (letters ≤ longest_word) }
    ensures { page.new ≡ put at page.old (line_of page_column (t.plain ∷ t.stored ∷ letters ∷ [])) }
{
    columns::write::<6, 3>(page, at, t.plain as u32);
    columns::write::<6, 3>(page, at + 6, t.stored as u32);
    columns::write::<6, 3>(page, at + 12, letters as u32);
    page[at + 18] = b'\n';
}

// The page of a run that accepts, written to the front of a slice that has room for it. Time: the run once.
fn write_lines(t: &Table, word: &[u8], run: &[u16], page: &mut [u8])
    requires { (length word.now ≤ longest_word) × (length run.now ≤ longest_run)
        × (accepting t.now.machine t.now.list.now word.now run.now ≡ true) × (page_length (length run.now) ≤ length page.old) }
    ensures { page.new ≡ put 0 page.old (page_of t.now.machine t.now.list.now word.now run.now) }
{
    let mut c = Config::start_at(usize::from(run[0]));
    let mut tally = Tally {
        plain: 0,
        stored: 0,
    };
    write_entry(page, 0, 0, c);
    for i in 1..run.len() {
        let next = after_entry(t, c, run[i]);
        tally = tally.counted(c, next);
        write_entry(page, ENTRY_LENGTH * i, i, next);
        c = next;
    }
    write_last(page, ENTRY_LENGTH * run.len(), tally, word.len());
}

// The first refusal of a table, a word and the length of a run: 16 the record and its list break the rules of a table, 9 the word or the
// run is too long, 8 the word has a letter that is not there.
// Time: the table and the word, each once.
#[tactic(auto, unfolding(crate::specs::Page::page_fault, fsbm::specs::Answers::refusal))]
fn fault(m: Machine, list: &[u16], word: &[u8], run: &[u16]) -> Result<(), Refusal>
    ensures { result ≡ passed (page_fault m list.now word.now run.now) }
{
    if !machine::is_well_formed(m, list) {
        return Err(Refusal::BadTable);
    }
    if LONGEST_RUN < run.len() {
        return Err(Refusal::TooLong);
    }
    answer::word_fault(LONGEST_WORD, m.letters, word)
}

// The public call: lays an accepting run out as a page at the front of the slice, and returns how many bytes it took. A line for
// each entry has five columns of six bytes: the entry's number from 0, then as they are after it the state, the mode (0 normal,
// 1 storing, 2 matching), the letters read so far and the letters in the buffer. A last line of three such columns has the
// letters read in normal mode, the letters stored and the word's length. Padding and line ends are the sheet's. It refuses 16
// (the record and its list break the rules of a table), 9 (a word of more than 255 letters or a run of more than 99,999
// entries), 8 (a letter that is not there), 14 (the run does not accept), 19 (the slice is too short) with the length needed,
// 31 bytes for each entry and 19, in this order. A refusal leaves the slice as it was; what stands past the page stays.
// Time: the table and the word once, the run twice. Memory: none beside its arguments.
pub fn write_page(
    m: Machine,
    list: &[u16],
    word: &[u8],
    run: &[u16],
    page: &mut [u8],
) -> Result<usize, Refusal>
    ensures { (result ≡ page_answer m list.now word.now run.now (length page.old))
        × (page.new ≡ page_after m list.now word.now run.now page.old)
        × (count_values result ≡ page_values m list.now word.now run.now (length page.old)) }
{
    fault(m, list, word, run)?;
    let t = Table { machine: m, list };
    let accepts = run::is_accepting_run(&t, word, run);
    let needed = ENTRY_LENGTH * run.len() + LAST_LENGTH;
    if !accepts {
        return Err(Refusal::NotAccepting);
    }
    if page.len() < needed {
        return Err(Refusal::ShortSheet(needed));
    }
    write_lines(&t, word, run, page);
    Ok(needed)
}
