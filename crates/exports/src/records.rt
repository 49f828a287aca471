// The records that more than one call answers. A field that does not apply is 0.
ghost use Rattle.std.specs.Prelude.{◌≡◌};
ghost use Rattle.fsbm.specs.Answers.{count_values, machine_values};
ghost use Rattle.exports.specs.Records.{counted, machine_record};

use fsbm::answer::Refusal;
use fsbm::limits::MAX_STATES;
use fsbm::machine::Machine;

// The machine of an answer that has none.
const NO_MACHINE: Machine = Machine {
    states: 0,
    letters: 0,
    transitions: 0,
    marks: [0; MAX_STATES],
};

// The answer of a call that writes to a slice: the refusal's number or 0, the length that the slice needs where it is too short, and how
// many bytes, letters, answers or sets are written.
#[repr(C)]
#[derive(Clone, Copy, Debug, PartialEq, Eq)]
pub struct Counted {
    pub refusal: u8,
    pub needed: usize,
    pub count: usize,
}

impl From<Result<usize, Refusal>> for Counted {
    ghost from_gives = { λ answer r. r ≡ counted (count_values answer) };

    fn from(answer: Result<usize, Refusal>) -> Counted {
        match answer {
            Ok(count) => Counted {
                refusal: 0,
                needed: 0,
                count,
            },
            Err(refusal) => Counted {
                refusal: refusal.number(),
                needed: refusal.needed(),
                count: 0,
            },
        }
    }
}

// The answer of a call that gives a table: the refusal's number or 0, the length that the list needs for 15, and the machine.
#[repr(C)]
#[derive(Clone, Copy)]
pub struct MachineRecord {
    pub refusal: u8,
    pub needed: usize,
    pub machine: Machine,
}

impl From<Result<Machine, Refusal>> for MachineRecord {
    ghost from_gives = { λ answer r. r ≡ machine_record (machine_values answer) };

    fn from(answer: Result<Machine, Refusal>) -> MachineRecord {
        match answer {
            Ok(machine) => MachineRecord {
                refusal: 0,
                needed: 0,
                machine,
            },
            Err(refusal) => MachineRecord {
                refusal: refusal.number(),
                needed: refusal.needed(),
                machine: NO_MACHINE,
            },
        }
    }
}
