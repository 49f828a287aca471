// One entry of a run, and a whole run.
ghost use Rattle.std.specs.Prelude.{◌≡◌, cond};
ghost use Rattle.fsbm.specs.Answers.{step_values, checked_values, check_values};
ghost use Rattle.exports.specs.Run.{mode_of, config_of, record_of, no_move, moved_record, stepped_record, checked_record};

use fsbm::answer::Refusal;
use fsbm::config::{Config, Mode, Move};
use fsbm::machine::Machine;

// A configuration with its mode as a number: 0 normal, 1 buffering, 2 emptying. A larger number is no mode.
#[repr(C)]
#[derive(Clone, Copy, Debug, PartialEq, Eq)]
pub struct ConfigRecord {
    pub position: usize,
    pub state: usize,
    pub mode: u8,
    pub start: usize,
    pub end: usize,
}

// The refusal's number or 0, whether the move is allowed, and the next configuration; the one that came in where there is none.
#[repr(C)]
#[derive(Clone, Copy, Debug, PartialEq, Eq)]
pub struct SteppedRecord {
    pub refusal: u8,
    pub allowed: u8,
    pub config: ConfigRecord,
}

// The refusal's number or 0, and whether the run accepts.
#[repr(C)]
#[derive(Clone, Copy, Debug, PartialEq, Eq)]
pub struct CheckedRecord {
    pub refusal: u8,
    pub accepting: u8,
}

impl From<Result<bool, Refusal>> for CheckedRecord {
    ghost from_gives = { λ answer r. r ≡ checked_record (checked_values answer) };

    fn from(answer: Result<bool, Refusal>) -> CheckedRecord {
        match answer {
            Ok(accepting) => CheckedRecord {
                refusal: 0,
                accepting: accepting as u8,
            },
            Err(refusal) => CheckedRecord {
                refusal: refusal.number(),
                accepting: 0,
            },
        }
    }
}

// The mode with this number: 0 normal, 1 buffering, else emptying.
fn mode_of(n: u8) -> Mode
    ensures { result ≡ mode_of n }
{
    match n {
        0 => Mode::Normal,
        1 => Mode::Buffering,
        _ => Mode::Emptying,
    }
}

impl From<ConfigRecord> for Config {
    ghost from_gives = { λ r c. c ≡ config_of r };

    fn from(r: ConfigRecord) -> Config {
        Config {
            position: r.position,
            state: r.state,
            mode: mode_of(r.mode),
            start: r.start,
            end: r.end,
        }
    }
}

impl From<Config> for ConfigRecord {
    ghost from_gives = { λ c r. r ≡ record_of c };

    fn from(c: Config) -> ConfigRecord {
        ConfigRecord {
            position: c.position,
            state: c.state,
            mode: c.mode.number(),
            start: c.start,
            end: c.end,
        }
    }
}

// One entry of a run. It refuses 16, 9 and 8, in this order; a mode above 2 is then no configuration that a move is allowed from.
#[unsafe(no_mangle)]
pub extern "C" fn zagvirk_step(
    machine: Machine,
    list: &[u16],
    word: &[u8],
    config: ConfigRecord,
    entry: u16,
) -> SteppedRecord
    ensures { result ≡ stepped_record config (step_values machine list.now word.now (config_of config) entry) }
{
    match Config::from(config).step(machine, list, word, entry) {
        Ok(moved) => moved_record(config, moved),
        Err(refusal) => SteppedRecord {
            refusal: refusal.number(),
            allowed: 0,
            config,
        },
    }
}

// What zagvirk_step says of a move, which is not allowed where the record had no mode.
fn moved_record(config: ConfigRecord, moved: Move) -> SteppedRecord
    ensures { result ≡ cond moved.allowed (moved_record config moved.config) (no_move config 0) }
{
    if moved.allowed && config.mode <= 2 {
        return SteppedRecord {
            refusal: 0,
            allowed: 1,
            config: ConfigRecord::from(moved.config),
        };
    }
    SteppedRecord {
        refusal: 0,
        allowed: 0,
        config,
    }
}

// A whole run. It refuses 16, 9 and 8, in this order.
#[unsafe(no_mangle)]
pub extern "C" fn zagvirk_check_run(
    machine: Machine,
    list: &[u16],
    word: &[u8],
    run: &[u16],
) -> CheckedRecord
    ensures { result ≡ checked_record (check_values machine list.now word.now run.now) }
{
    CheckedRecord::from(fsbm::run::check_run(machine, list, word, run))
}
