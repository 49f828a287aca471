// Recognition with a run.
ghost use Rattle.std.specs.Prelude.{◌≡◌};
ghost use Rattle.recognize.specs.Recognition.{recognized_values};
ghost use Rattle.exports.specs.Recognize.{Exported, recognized_record};

use fsbm::answer::Refusal;
use fsbm::machine::Machine;

// The refusal's number or 0, the length that the slice needs for 17, whether the word is accepted, and the run's number of entries.
#[repr(C)]
#[derive(Clone, Copy, Debug, PartialEq, Eq)]
pub struct RecognitionRecord {
    pub refusal: u8,
    pub needed: usize,
    pub accepted: u8,
    pub entries: usize,
}

impl From<Result<Option<usize>, Refusal>> for RecognitionRecord {
    ghost from_gives = { λ answer r. r ≡ recognized_record (recognized_values answer) };

    fn from(answer: Result<Option<usize>, Refusal>) -> RecognitionRecord {
        match answer {
            Ok(Some(entries)) => RecognitionRecord {
                refusal: 0,
                needed: 0,
                accepted: 1,
                entries,
            },
            Ok(None) => RecognitionRecord {
                refusal: 0,
                needed: 0,
                accepted: 0,
                entries: 0,
            },
            Err(refusal) => RecognitionRecord {
                refusal: refusal.number(),
                needed: refusal.needed(),
                accepted: 0,
                entries: 0,
            },
        }
    }
}

// Whether the machine accepts the word, with an accepting run at the front of run. It refuses 16, 9, 8 and 17, in this order.
#[unsafe(no_mangle)]
pub extern "C" fn zagvirk_recognize(
    machine: Machine,
    list: &[u16],
    word: &[u8],
    run: &mut [u16],
) -> RecognitionRecord
    ensures { Exported machine list.now word.now run.old run.new result }
{
    RecognitionRecord::from(recognize::recognize(machine, list, word, run))
}
