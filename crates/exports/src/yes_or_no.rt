// Yes or no without a run, for one word and for a list of words. A field that does not apply is 0.
ghost use Rattle.std.specs.Prelude.{◌≡◌, length};
ghost use Rattle.accepts.specs.Decision.{decided_values, decision_values};
ghost use Rattle.accepts.specs.Words.{words_after, words_values};
ghost use Rattle.exports.specs.Records.{counted};
ghost use Rattle.exports.specs.YesOrNo.{decided_record};

use crate::records::Counted;
use accepts::{word, words};
use fsbm::answer::Refusal;
use fsbm::machine::Machine;

// The answer of zagvirk_accepts: the refusal's number or 0, and whether the word is accepted.
#[repr(C)]
#[derive(Clone, Copy, Debug, PartialEq, Eq)]
pub struct DecidedRecord {
    pub refusal: u8,
    pub accepted: u8,
}

impl From<Result<bool, Refusal>> for DecidedRecord {
    ghost from_gives = { λ answer r. r ≡ decided_record (decided_values answer) };

    fn from(answer: Result<bool, Refusal>) -> DecidedRecord {
        match answer {
            Ok(accepted) => DecidedRecord {
                refusal: 0,
                accepted: accepted as u8,
            },
            Err(refusal) => DecidedRecord {
                refusal: refusal.number(),
                accepted: 0,
            },
        }
    }
}

// accepts::word::accepts. It refuses 16, 9 and 8, in this order.
#[unsafe(no_mangle)]
pub extern "C" fn zagvirk_accepts(machine: Machine, list: &[u16], word: &[u8]) -> DecidedRecord
    ensures { result ≡ decided_record (decision_values machine list.now word.now) }
{
    DecidedRecord::from(word::accepts(machine, list, word))
}

// accepts::words::accept_words: the number of answers. It refuses 16, 34 and 35, in this order.
#[unsafe(no_mangle)]
pub extern "C" fn zagvirk_accept_words(
    machine: Machine,
    list: &[u16],
    letters: &[u8],
    ends: &[usize],
    answers: &mut [u8],
) -> Counted
    ensures { (result ≡ counted (words_values machine list.now letters.now ends.now (length answers.old)))
        × (answers.new ≡ words_after machine list.now letters.now ends.now answers.old) }
{
    Counted::from(words::accept_words(machine, list, letters, ends, answers))
}
