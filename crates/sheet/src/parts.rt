// The three parts of a sheet, read once: line one, the lines of the states and those of the transitions, each to its first fault in
// reading order or to its end.
ghost use Rattle.std.specs.Prelude.{◌+◌, ◌*◌, ◌<◌, ◌≤◌, ◌≡◌, length, replicate};
ghost use Rattle.fsbm.specs.Machine.{max_states};
ghost use Rattle.columns.specs.Column.{some_number};
ghost use Rattle.sheet.specs.Reading.{column_at};
ghost use Rattle.sheet.specs.Parts.{LineRead, HeaderRead, StatesRead, TransitionsRead};

use crate::faults::Line;
use crate::header::Header;
use crate::{HEADER_LENGTH, STATE_LENGTH, TRANSITION_LENGTH, faults};
use fsbm::answer::Refusal;
use fsbm::machine::Marks;

// The byte that ends a line.
const LINE_END: u8 = b'\n';

// The number in the column of five bytes that starts at byte at, if they are a column.
#[tactic(auto, unfolding(crate::specs::Reading::column_at))]
fn column(sheet: &[u8], at: usize) -> Option<usize>
    requires { at + 5 ≤ length sheet.now }
    ensures { result ≡ some_number (column_at sheet.now at) }
{
    columns::number(sheet, at, 5)
}

// The numbers of the line of N columns, at most three, that starts at byte at, at most 100,000. It refuses 1 (fewer bytes are left than
// the line takes), 2 (a column or the line end is not as described).
pub fn read_line<const N: usize>(bytes: &[u8], at: usize) -> Result<[usize; N], Refusal>
    requires { (at ≤ 100000) × (N ≤ 3) }
    ensures { LineRead bytes.now N at result }
{
    let end = at + N * 5;
    if bytes.len() <= end {
        return Err(Refusal::MissingBytes);
    }
    let mut numbers = [0; N];
    for c in 0..N {
        let Some(number) = column(bytes, at + c * 5) else {
            return Err(Refusal::BadColumn);
        };
        numbers[c] = number;
    }
    if bytes[end] != LINE_END {
        return Err(Refusal::BadColumn);
    }
    Ok(numbers)
}

// Line one: its counts. It refuses its first fault, 1, 2 or 3.
pub fn read_header(sheet: &[u8]) -> Result<Header, Refusal>
    ensures { HeaderRead sheet.now result }
{
    let [states, letters, transitions] = read_line::<3>(sheet, 0)?;
    faults::counts_fault(states, letters, transitions)?;
    Ok(Header {
        states,
        letters,
        transitions,
    })
}

// The lines of the states: their marks. They refuse their first fault, 1, 2 or 4. All marks are 0 before, and past the last state after.
// (Not read_line in the loop: nested loops over lines and columns, left by label at the first fault, are the form that the reading of a
// sheet is to have.)
pub fn read_states(sheet: &[u8], states: usize, marks: &mut Marks) -> Result<(), Refusal>
    requires { (states ≤ 64) × (marks.old ≡ replicate max_states 0) }
    ensures { StatesRead sheet.now states result marks.new }
{
    'sheet: {
        for q in 0..states {
            let at = HEADER_LENGTH + STATE_LENGTH * q;
            if sheet.len() < at + STATE_LENGTH {
                break 'sheet Err(Refusal::MissingBytes);
            }
            let mut numbers = [0; 2];
            for c in 0..2 {
                let Some(number) = column(sheet, at + c * 5) else {
                    break 'sheet Err(Refusal::BadColumn);
                };
                numbers[c] = number;
            }
            if sheet[at + 10] != LINE_END {
                break 'sheet Err(Refusal::BadColumn);
            }
            let [number, mark] = numbers;
            if let Err(refusal) = faults::mark_fault(q, number, mark) {
                break 'sheet Err(refusal);
            }
            marks[q] = mark as u8;
        }
        Ok(())
    }
}

// The lines of the transitions: their numbers at the front of kept, three for each; a byte holds each of them. They refuse their first
// fault, 1, 2, 5 or 6. (The loops are as in read_states.)
pub fn read_transitions(
    sheet: &[u8],
    states: usize,
    letters: usize,
    transitions: usize,
    kept: &mut [u8],
) -> Result<(), Refusal>
    requires { (states ≤ 64) × (letters ≤ 250) × (transitions ≤ 4000) × (transitions * 3 ≤ length kept.old) }
    ensures { TransitionsRead sheet.now states letters transitions kept.old result kept.new }
{
    let start = HEADER_LENGTH + STATE_LENGTH * states;
    let mut before = None;
    'sheet: {
        for k in 0..transitions {
            let at = start + TRANSITION_LENGTH * k;
            if sheet.len() < at + TRANSITION_LENGTH {
                break 'sheet Err(Refusal::MissingBytes);
            }
            let mut numbers = [0; 3];
            for c in 0..3 {
                let Some(number) = column(sheet, at + c * 5) else {
                    break 'sheet Err(Refusal::BadColumn);
                };
                numbers[c] = number;
            }
            if sheet[at + 15] != LINE_END {
                break 'sheet Err(Refusal::BadColumn);
            }
            let [from, letter, to] = numbers;
            let t = Line { from, letter, to };
            if let Err(refusal) = faults::order_fault(states, letters, before, t) {
                break 'sheet Err(refusal);
            }
            let i = k * 3;
            kept[i] = from as u8;
            kept[i + 1] = letter as u8;
            kept[i + 2] = to as u8;
            before = Some(t);
        }
        Ok(())
    }
}
