// The lines of the listing: from the bytes of a word's line to the three numbers that are printed for it, and their line.
//
// answer_line  what is printed for a word's line
// write_line   the printed line

#![tactic(auto)]

ghost use Rattle.std.specs.Prelude.{◌+◌, ◌≤◌, ◌≡◌, length};
ghost use Rattle.basics.specs.Lists.{put};
ghost use Rattle.accepts.specs.Ready.{Ready, Working};
ghost use Rattle.lines.specs.Line.{line_answer, answer_line};
ghost use Rattle.lines.specs.Steps.{as_byte, answer_of, WordRead};

use accepts::prepared;
use fsbm::answer::Refusal;
use fsbm::limits::{LONGEST_WORD, POSITIONS};
use fsbm::machine::Machine;
use images::Kinds;
use stateset::StateSet;

// The most bytes of a word's line: 255 letters in columns of five.
pub const LONGEST: usize = 1275;

// What is printed for a word: 1 yes, 0 no, 2 turned down; and the refusal's number or 0. These are the numbers of the listing's columns,
// as the definition of a line has them, and so no enum.
#[derive(Clone, Copy, Debug, PartialEq, Eq)]
pub struct Answer {
    pub answer: u8,
    pub refusal: u8,
}

// A column's number as a byte of a word: itself, or where no byte holds it 0, which is no letter.
fn byte(v: usize) -> u8
    ensures { result ≡ as_byte v }
{
    if 255 < v {
        return 0;
    }
    v as u8
}

// Reads the numbers of a word's line to the front of word, before its letters are looked at. It refuses 9 (more than 1,275 bytes) and 2 (a
// column that holds no number, or a part of one).
fn read_word(line: &[u8], word: &mut [u8]) -> Result<(), Refusal>
    requires { 255 ≤ length word.old }
    ensures { WordRead line.now result word.new }
{
    if LONGEST < line.len() {
        return Err(Refusal::TooLong);
    }
    if line.len() % 5 != 0 {
        return Err(Refusal::BadColumn);
    }
    let n = line.len() / 5;
    for k in 0..n {
        let Some(v) = columns::number(line, k * 5, 5) else {
            return Err(Refusal::BadColumn);
        };
        word[k] = byte(v);
    }
    Ok(())
}

// Writes the line of a word's number and answer, 16 bytes, from byte at on.
pub fn write_line(out: &mut [u8], at: usize, number: usize, a: Answer)
    requires { at + 16 ≤ length out.old }
    ensures { out.new ≡ put at out.old (answer_line number a.answer a.refusal) }
{
    columns::write_number(out, at, number);
    columns::write_number(out, at + 5, a.answer as usize);
    columns::write_number(out, at + 10, a.refusal as usize);
    out[at + 15] = 10;
}

// What is printed for the answer to a word.
fn answer_of(decided: Result<bool, Refusal>) -> Answer
    ensures { result ≡ answer_of decided }
{
    match decided {
        Ok(true) => Answer {
            answer: 1,
            refusal: 0,
        },
        Ok(false) => Answer {
            answer: 0,
            refusal: 0,
        },
        Err(refusal) => Answer {
            answer: 2,
            refusal: refusal.number(),
        },
    }
}

// What is printed for a word's line, on a table that obeys the rules (the sheet reader answers no other) and was made ready for all its
// words: 2 and the refusal's number, in the order 9, 2, 8, or 1 or 0 for a word that the table accepts or not, as accepts answers it.
// What is lent beside the line is handed from word to word (accepts::prepared::accepts_next).
// Time: the line once, and the time of the answer. Memory: 255 bytes, and that of the answer.
pub fn answer_line(
    m: Machine,
    list: &[u16],
    targets: &[StateSet],
    kinds: Kinds,
    line: &[u8],
    rows: &mut [StateSet],
    steps: &mut [u16],
    sets: &mut [StateSet; POSITIONS],
) -> Answer
    requires { Ready m list.now targets.now kinds × Working m targets.now kinds rows.old steps.old sets.old }
    ensures { (result ≡ line_answer m list.now line.now) × Working m targets.now kinds rows.new steps.new sets.new }
{
    let mut word = [0u8; LONGEST_WORD];
    if let Err(refusal) = read_word(line, &mut word) {
        return answer_of(Err(refusal));
    }
    let n = line.len() / 5;
    let decided = prepared::accepts_next(m, list, targets, kinds, rows, steps, sets, &word[..n]);
    answer_of(decided)
}
