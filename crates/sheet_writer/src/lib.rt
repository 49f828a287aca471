// The writer of sheets: write_sheet.

#![tactic(auto)]

ghost use Rattle.fsbm.specs.Answers.{count_values};
ghost use Rattle.std.specs.Prelude.{◌+◌, ◌*◌, ◌^◌, ◌<◌, ◌≤◌, ◌≡◌, [], ◌∷◌, length};
ghost use Rattle.basics.specs.Lists.{put};
ghost use Rattle.basics.specs.Each.{each_below};
ghost use Rattle.columns.specs.Line.{line_of};
ghost use Rattle.sheet.specs.Format.{sheet_column, state_line, transition_line};
ghost use Rattle.sheet.specs.Writing.{write_answer, write_sheet, write_values};

use fsbm::answer::Refusal;
use fsbm::machine;
use fsbm::machine::Machine;
use fsbm::table::Table;
use sheet::{HEADER_LENGTH, STATE_LENGTH, TRANSITION_LENGTH};

// A line of three columns, written from byte at on. The numbers have at most two, three and D digits.
fn write_three<const D: usize>(sheet: &mut [u8], at: usize, a: u32, b: u32, c: u32)
    requires { (at + 16 ≤ length sheet.old) × (a < 100) × (b < 1000) × (c < 10 ^ D) }
    ensures { sheet.new ≡ put at sheet.old (line_of sheet_column (a ∷ b ∷ c ∷ [])) }
{
    columns::write::<5, 2>(sheet, at, a);
    columns::write::<5, 3>(sheet, at + 5, b);
    columns::write::<5, D>(sheet, at + 10, c);
    sheet[at + 15] = b'\n';
}

// The line of a state, written from byte at on.
fn write_state(sheet: &mut [u8], at: usize, q: u32, mark: u32)
    requires { (at + 11 ≤ length sheet.old) × (q < 100) × (mark < 1000) }
    ensures { sheet.new ≡ put at sheet.old (line_of sheet_column (q ∷ mark ∷ [])) }
{
    columns::write::<5, 2>(sheet, at, q);
    columns::write::<5, 3>(sheet, at + 5, mark);
    sheet[at + 10] = b'\n';
}

// The lines of the states, written after line one.
#[tactic(auto, using(fsbm::specs::Rules::rules))]
fn write_states(sheet: &mut [u8], t: &Table)
    requires { 16 + 11 * t.now.machine.states ≤ length sheet.old }
    ensures { sheet.new ≡ put 16 sheet.old (each_below t.now.machine.states (state_line t.now.machine.marks)) }
{
    for q in 0..t.machine.states {
        let mark = machine::mark(&t.machine.marks, q);
        write_state(
            sheet,
            HEADER_LENGTH + STATE_LENGTH * q,
            q as u32,
            u32::from(mark),
        );
    }
}

// The lines of the transitions, written from byte start on.
fn write_transitions(sheet: &mut [u8], t: &Table, start: usize)
    requires { start + 16 * t.now.machine.transitions ≤ length sheet.old }
    ensures { sheet.new ≡ put start sheet.old (each_below t.now.machine.transitions (transition_line t.now.list.now)) }
{
    for k in 0..t.machine.transitions {
        let s = t.transition(k);
        let at = start + TRANSITION_LENGTH * k;
        write_three::<2>(
            sheet,
            at,
            u32::from(s.from),
            u32::from(s.letter),
            u32::from(s.to),
        );
    }
}

// The public call that writes the sheet of a table to the front of the slice: how many bytes it took. It refuses 16 (the record and
// its list break the rules of a table), 19 (the slice is too short) with the length needed, in this order. A refusal leaves the
// slice as it was; what stands past the sheet stays.
// Time: the table once to test it, once to write it. Memory: none beside its arguments.
#[tactic(auto, using(fsbm::specs::Rules::rules))]
pub fn write_sheet(m: Machine, list: &[u16], sheet: &mut [u8]) -> Result<usize, Refusal>
    ensures { (result ≡ write_answer m list.now (length sheet.old)) × (sheet.new ≡ write_sheet m list.now sheet.old) × (count_values result ≡ write_values m list.now (length sheet.old)) }
{
    if !machine::is_well_formed(m, list) {
        return Err(Refusal::BadTable);
    }
    let t = Table { machine: m, list };
    let start = HEADER_LENGTH + STATE_LENGTH * m.states;
    let needed = start + TRANSITION_LENGTH * m.transitions;
    if sheet.len() < needed {
        return Err(Refusal::ShortSheet(needed));
    }
    write_three::<5>(
        sheet,
        0,
        m.states as u32,
        m.letters as u32,
        m.transitions as u32,
    );
    write_states(sheet, &t);
    write_transitions(sheet, &t, start);
    Ok(needed)
}
