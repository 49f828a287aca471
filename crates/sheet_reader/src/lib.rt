// The reader of sheets: read_sheet.

#![tactic(auto)]

ghost use Rattle.std.specs.Prelude.{◌*◌, ◌≤◌, ◌≡◌, length, replicate};
ghost use Rattle.fsbm.specs.Machine.{max_states};
ghost use Rattle.fsbm.specs.Answers.{machine_values};
ghost use Rattle.sheet.specs.Reading.{read_answer, read_list, read_values};
ghost use Rattle.sheet.specs.Parts.{Counted, RestRead};

use fsbm::answer::Refusal;
use fsbm::limits::{LIST_LENGTH, MAX_STATES};
use fsbm::machine::{Machine, Marks};
use sheet::header::Header;
use sheet::{HEADER_LENGTH, STATE_LENGTH, TRANSITION_LENGTH, parts};

// At most so many transitions are kept in a smaller array, which takes less time to clear.
const FEW_TRANSITIONS: usize = 64;

// The numbers of so many transitions, three for each.
const FEW_LENGTH: usize = 192;

// Reads what stands behind line one. It refuses the first fault in reading order, 1, 2, 4 to 7, then 15 with the length needed. The
// numbers of the transitions are kept in an array of N bytes, at most 12,000; the list is written once nothing can be refused any more.
// The marks, all 0 before, are those of the states where nothing is refused.
fn read_kept<const N: usize>(
    sheet: &[u8],
    header: Header,
    marks: &mut Marks,
    list: &mut [u16],
) -> Result<(), Refusal>
    requires { Counted sheet.now header × (header.transitions * 3 ≤ N) × (N ≤ 12000) × (marks.old ≡ replicate max_states 0) }
    ensures { RestRead sheet.now list.old result list.new marks.new }
{
    let mut kept = [0; N];
    parts::read_states(sheet, header.states, marks)?;
    parts::read_transitions(
        sheet,
        header.states,
        header.letters,
        header.transitions,
        &mut kept,
    )?;
    let end = HEADER_LENGTH + STATE_LENGTH * header.states + TRANSITION_LENGTH * header.transitions;
    if end < sheet.len() {
        return Err(Refusal::BytesLeft);
    }
    let needed = header.transitions * 3;
    if list.len() < needed {
        return Err(Refusal::ShortList(needed));
    }
    for (i, number) in kept[..needed].iter().enumerate() {
        list[i] = u16::from(*number);
    }
    Ok(())
}

// The same, with an array that is no larger than need be.
fn read_rest(
    sheet: &[u8],
    header: Header,
    marks: &mut Marks,
    list: &mut [u16],
) -> Result<(), Refusal>
    requires { Counted sheet.now header × (marks.old ≡ replicate max_states 0) }
    ensures { RestRead sheet.now list.old result list.new marks.new }
{
    if header.transitions <= FEW_TRANSITIONS {
        return read_kept::<FEW_LENGTH>(sheet, header, marks, list);
    }
    read_kept::<LIST_LENGTH>(sheet, header, marks, list)
}

// The public call that reads a sheet: its machine, with the transitions at the front of the list, three numbers each. It refuses
// the first fault in reading order, 1 to 7, then 15 (the list is too short) with the length needed. A refusal leaves the list as
// it was, and what stands in the list past the transitions stays as it was.
// Time: each byte of the sheet once at most. Memory: the machine, and 12 KB that keep its transitions.
pub fn read_sheet(sheet: &[u8], list: &mut [u16]) -> Result<Machine, Refusal>
    ensures { (result ≡ read_answer sheet.now (length list.old)) × (list.new ≡ read_list sheet.now list.old) × (machine_values result ≡ read_values sheet.now (length list.old)) }
{
    let header = parts::read_header(sheet)?;
    let mut marks: Marks = [0; MAX_STATES];
    read_rest(sheet, header, &mut marks, list)?;
    Ok(Machine {
        states: header.states,
        letters: header.letters,
        transitions: header.transitions,
        marks,
    })
}
