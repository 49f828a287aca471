// The walk that writes a run: at each configuration the smallest entry whose next configuration has one move less to go.
ghost use Rattle.std.specs.Prelude.{ℕ, ◌+◌, ◌-◌, ◌*◌, ◌/◌, ◌≤◌, ◌<◌, ◌≡◌, true, List, length, get_or, []};
ghost use Rattle.fsbm.specs.Machine.{initial};
ghost use Rattle.fsbm.specs.Moves.{well_placed, start_at, accepting};
ghost use Rattle.fsbm.specs.Accepted.{accepted, run_bound};
ghost use Rattle.layers.specs.Costs.{none};
ghost use Rattle.targets.specs.Prepared.{Prepared};
ghost use Rattle.images.specs.Graph.{KindsOf};
ghost use Rattle.decide.specs.NormalSets.{NormalSets};
ghost use Rattle.tables.specs.Tables.{Sized, Sizes, PositionRows};
ghost use Rattle.tables.specs.Words.{for_word};
ghost use Rattle.runs.specs.Walk.{BestFrom, Ready, change_entry, Tried, Scanned, Entered, Fresh, Refreshed, Started, Written};

use crate::lookup::{Copies, Lookup};
use decide::positions::Reached;
use fsbm::config::{BACK_TO_NORMAL, BEGIN_BUFFERING, BEGIN_EMPTYING, Config, Mode};
use fsbm::limits::MAX_STATES;
use fsbm::machine;
use fsbm::table::Table;
use images::Kinds;
use layers::moves::Moves;
use layers::row::{NONE, Row};
use stateset::StateSet;
use tables::ends::{Ends, Left};
use tables::word::Word;

// The number of state q in row i of a table.
fn number(t: &[Row], i: usize, q: usize) -> u32
    requires { (i < length t.now) × (q < 64) }
    ensures { result ≡ get_or (get_or t.now i []) q 0 }
{
    t[i][q]
}

// The entry that changes a mode.
fn change_entry(mode: Mode) -> u16
    ensures { result ≡ change_entry mode }
{
    match mode {
        Mode::Normal => BEGIN_BUFFERING,
        Mode::Buffering => BEGIN_EMPTYING,
        Mode::Emptying => BACK_TO_NORMAL,
    }
}

impl Lookup<'_, '_> {
    // The fewest moves from a configuration to acceptance, NONE where there is no way.
    fn cost(&self, c: Config, copies: &Copies) -> u32
        requires { (well_placed self.now.word.moves.table.machine.states (length self.now.word.letters.now) c ≡ true) × for_word Ready self.now.word self.now.positions.now copies.now.emptied.now copies.now.stored.now c }
        ensures { for_word BestFrom self.now.word c result }
    {
        let mode = c.mode;
        match mode {
            Mode::Normal => number(self.positions, c.position * 3, c.state),
            Mode::Buffering => {
                let d = c.position - c.start;
                if d == 0 {
                    return number(self.positions, c.position * 3 + 1, c.state);
                }
                if self.word.letters.len() < c.position + d {
                    return NONE;
                }
                number(copies.stored, d, c.state)
            }
            Mode::Emptying => number(copies.emptied, c.end - c.start, c.state),
        }
    }

    // Whether transition k leads to a configuration with d moves to go.
    fn leads(&self, c: Config, copies: &Copies, d: u32, k: usize) -> bool
        requires { (well_placed self.now.word.moves.table.machine.states (length self.now.word.letters.now) c ≡ true) × for_word Ready self.now.word self.now.positions.now copies.now.emptied.now copies.now.stored.now c × (k < self.now.word.moves.table.machine.transitions) }
        ensures { for_word Tried self.now.word c d k result }
    {
        let table = &self.word.moves.table;
        if usize::from(table.transition(k).from) != c.state {
            return false;
        }
        let m = &table.machine;
        let v = c.moved(
            m.states,
            m.transitions,
            &m.marks,
            table.list,
            self.word.letters,
            k as u16,
        );
        v.allowed && self.cost(v.config, copies) == d
    }

    // The first transition that leads to a configuration with d moves to go; None where none does. Only those that
    // leave the configuration's state are tried.
    fn scan(&self, c: Config, copies: &Copies, d: u32) -> Option<usize>
        requires { (well_placed self.now.word.moves.table.machine.states (length self.now.word.letters.now) c ≡ true) × for_word Ready self.now.word self.now.positions.now copies.now.emptied.now copies.now.stored.now c }
        ensures { for_word Scanned self.now.word c d result }
    {
        let first = &self.index.first;
        for k in usize::from(first[c.state])..usize::from(first[c.state + 1]) {
            if self.leads(c, copies, d, k) {
                return Some(k);
            }
        }
        None
    }

    // The smallest entry that leads to a configuration with d moves to go, from one with d + 1.
    fn entry(&self, c: Config, copies: &Copies, d: u32) -> u16
        requires { (well_placed self.now.word.moves.table.machine.states (length self.now.word.letters.now) c ≡ true) × for_word Ready self.now.word self.now.positions.now copies.now.emptied.now copies.now.stored.now c
            × for_word BestFrom self.now.word c (d + 1) × (d + 1 < none) }
        ensures { for_word Entered self.now.word c d result }
    {
        match self.scan(c, copies, d) {
            Some(k) => k as u16,
            None => change_entry(c.mode),
        }
    }

    // Makes the tables ready for a configuration that entry e led to.
    fn refresh(&self, c: Config, e: u16, copies: &mut Copies)
        requires { for_word Fresh self.now.word self.now.positions.now copies.old.emptied.now copies.old.stored.now c e }
        ensures { for_word Refreshed self.now.word self.now.positions.now copies.old.emptied.now copies.new.emptied.now copies.old.stored.now copies.new.stored.now c }
    {
        match e {
            BEGIN_BUFFERING => {
                if c.start < self.word.letters.len() {
                    self.word
                        .buffering_rows(self.positions, c.start, copies.stored);
                }
            }
            BEGIN_EMPTYING => {
                let d = c.end - c.start;
                let end = c.position + d;
                self.word
                    .emptying_rows(self.positions[end * 3 + 2], end, d, copies.emptied);
            }
            _ => {}
        }
    }

    // Writes a run that starts in state q and has this many moves.
    fn walk(&self, q: usize, moves: u32, copies: &mut Copies, run: &mut [u16]) -> usize
        requires { (q < self.now.word.moves.table.machine.states) × (initial self.now.word.moves.table.machine.marks q ≡ true) × Sized self.now.word.letters.now self.now.positions.now copies.old.emptied.now copies.old.stored.now
            × ((p : ℕ) → p ≤ length self.now.word.letters.now → for_word PositionRows self.now.word self.now.positions.now p) × for_word BestFrom self.now.word (start_at q) moves × (moves < none) × (1 + moves ≤ length run.old)
            × ((other : List ℕ) → accepting self.now.word.moves.table.machine self.now.word.moves.table.list.now self.now.word.letters.now other ≡ true → 1 + moves ≤ length other) }
        ensures { Written self.now.word.moves.table.machine self.now.word.moves.table.list.now self.now.word.letters.now result run.old run.new }
    {
        let table = &self.word.moves.table;
        let m = &table.machine;
        run[0] = q as u16;
        let mut c = Config::start_at(q);
        for d in (0..moves).rev() {
            let e = self.entry(c, copies, d);
            let v = c.moved(
                m.states,
                m.transitions,
                &m.marks,
                table.list,
                self.word.letters,
                e,
            );
            c = v.config;
            self.refresh(c, e, copies);
            run[(moves - d) as usize] = e;
        }
        1 + moves as usize
    }
}

// The better start of b and q.
fn better(t: &Table, row: &Row, b: Option<usize>, q: usize) -> Option<usize>
    requires { (q < t.now.machine.states) × Started t.now.machine row.now q b }
    ensures { Started t.now.machine row.now (q + 1) result }
{
    if !machine::is_initial(&t.machine.marks, q) {
        return b;
    }
    let Some(best) = b else {
        return Some(q);
    };
    if row[q] < row[best] {
        return Some(q);
    }
    b
}

// The first initial state with the least number of a row.
fn start(t: &Table, row: &Row) -> Option<usize>
    ensures { Started t.now.machine row.now t.now.machine.states result }
{
    let mut b = None;
    for q in 0..t.machine.states {
        b = better(t, row, b, q);
    }
    b
}

// write_run with tables that are lent.
fn write_with(
    word: &Word,
    t: &mut [Row],
    ends: &mut Ends,
    copies: &mut Copies,
    run: &mut [u16],
) -> usize
    requires { (accepted word.now.moves.table.machine word.now.moves.table.list.now word.now.letters.now ≡ true) × (run_bound word.now.moves.table.machine (length word.now.letters.now) ≤ length run.old)
        × Sizes word.now.letters.now t.old ends.old.rows.now ends.old.left.now × Sized word.now.letters.now t.old copies.old.emptied.now copies.old.stored.now
        × NormalSets word.now.moves.table.machine word.now.moves.table.list.now word.now.letters.now word.now.sets.now }
    ensures { Written word.now.moves.table.machine word.now.moves.table.list.now word.now.letters.now result run.old run.new }
{
    word.fill(t, ends);
    let word = *word;
    let index = adjacency::index(&word.moves.table);
    let q = start(&word.moves.table, &t[0]).unwrap();
    let moves = t[0][q];
    let lookup = Lookup {
        word,
        index,
        positions: t,
    };
    lookup.walk(q, moves, copies, run)
}

// So many blank rows. They are handed back by a function, since the compiler then fills the array where it is wanted, once; an array that
// is written in its place is cleared first and then filled row by row.
fn blank_rows<const N: usize>() -> [Row; N] {
    [[NONE; MAX_STATES]; N]
}

// write_run for a word of fewer letters than ENDS, in tables of this many rows: three for each position, one for each end of a copy, one
// for each number of letters of a half. Each size has a frame of its own, so that a short word does not pay for a large one.
#[inline(never)]
fn write_within<const POSITIONS: usize, const ENDS: usize, const HALF: usize>(
    word: &Word,
    run: &mut [u16],
) -> usize
    requires { (length word.now.letters.now < ENDS) × (ENDS * 3 ≤ POSITIONS) × (ENDS ≤ HALF + HALF) × (POSITIONS ≤ 768) × (HALF ≤ 128) × (accepted word.now.moves.table.machine word.now.moves.table.list.now word.now.letters.now ≡ true)
        × (run_bound word.now.moves.table.machine (length word.now.letters.now) ≤ length run.old) × NormalSets word.now.moves.table.machine word.now.moves.table.list.now word.now.letters.now word.now.sets.now }
    ensures { Written word.now.moves.table.machine word.now.moves.table.list.now word.now.letters.now result run.old run.new }
{
    let mut t = blank_rows::<POSITIONS>();
    let mut rows = blank_rows::<ENDS>();
    let mut left = [Left::Kept(0); ENDS];
    let mut ends = Ends {
        rows: &mut rows,
        left: &mut left,
    };
    let mut emptied = blank_rows::<HALF>();
    let mut stored = blank_rows::<HALF>();
    let mut copies = Copies {
        emptied: &mut emptied,
        stored: &mut stored,
    };
    write_with(word, &mut t, &mut ends, &mut copies, run)
}

// Writes an accepting run of a word that the machine accepts to the front of the slice, and hands back the number of its entries.
// No accepting run has fewer. What stands after it is as it was. Which of the runs with as few it is, the contract leaves open.
// targets is the table of target sets prepared for the word, kinds the states by their marks, reached the states that runs reach.
// Time: for each position that runs reach its states, and for each stretch that stands twice in a row from where a copy may begin to
// where one may end, the states; for each state its targets, where none of them has the least number of all. Memory: by the sizes of
// its tables 328 KB of stack for a word of more than 63 letters, 82 KB for one of more than 15, else 21 KB; in a frame of its own, so that a
// word that is not accepted does not pay for it.
#[inline(never)]
pub fn write_run<'a>(
    table: &Table<'a>,
    targets: &'a [StateSet],
    kinds: Kinds,
    word: &'a [u8],
    reached: &'a Reached,
    run: &mut [u16],
) -> usize
    requires { (length word.now ≤ 255) × (accepted table.now.machine table.now.list.now word.now ≡ true) × (run_bound table.now.machine (length word.now) ≤ length run.old)
        × KindsOf table.now.machine.marks table.now.machine.states kinds × Prepared table.now.machine table.now.list.now word.now targets.now × NormalSets table.now.machine table.now.list.now word.now reached.now.sets }
    ensures { Written table.now.machine table.now.list.now word.now result run.old run.new }
{
    let table = *table;
    let moves = Moves {
        table,
        targets,
        buffering: kinds.buffering,
        matching: kinds.matching,
    };
    let word = Word {
        moves,
        sets: &reached.sets,
        letters: word,
    };
    match word.letters.len() {
        0..=15 => write_within::<48, 16, 8>(&word, run),
        16..=63 => write_within::<192, 64, 32>(&word, run),
        _ => write_within::<768, 256, 128>(&word, run),
    }
}
