// The search for a shortest common word.
ghost use Rattle.std.specs.Prelude.{◌≡◌};
ghost use Rattle.common.specs.Common.{common_values, nothing_found};
ghost use Rattle.exports.specs.CommonWords.{ExportedCommon, common_record};

use common::Lengths;
use fsbm::answer::Refusal;
use fsbm::machine::Machine;

// The refusal's number or 0, the length that the slice needs for 18 and 17, whether a common word was found, its number of letters, and the
// number of entries of each run; 0 where they do not apply.
#[repr(C)]
#[derive(Clone, Copy, Debug, PartialEq, Eq)]
pub struct CommonRecord {
    pub refusal: u8,
    pub needed: usize,
    pub found: u8,
    pub letters: usize,
    pub first: usize,
    pub second: usize,
}

impl From<Result<Option<Lengths>, Refusal>> for CommonRecord {
    ghost from_gives = { λ answer r. r ≡ common_record (common_values answer) };

    fn from(answer: Result<Option<Lengths>, Refusal>) -> CommonRecord {
        match answer {
            Ok(Some(lengths)) => CommonRecord {
                refusal: 0,
                needed: 0,
                found: 1,
                letters: lengths.letters,
                first: lengths.first,
                second: lengths.second,
            },
            Ok(None) => CommonRecord::nothing(0, 0),
            Err(refusal) => CommonRecord::nothing(refusal.number(), refusal.needed()),
        }
    }
}

impl CommonRecord {
    // Of an answer with which nothing is written.
    fn nothing(refusal: u8, needed: usize) -> CommonRecord
        ensures { result ≡ common_record (nothing_found refusal needed) }
    {
        CommonRecord {
            refusal,
            needed,
            found: 0,
            letters: 0,
            first: 0,
            second: 0,
        }
    }
}

// search::common_word.
#[unsafe(no_mangle)]
pub extern "C" fn zagvirk_common_word(
    first: Machine,
    first_list: &[u16],
    second: Machine,
    second_list: &[u16],
    word: &mut [u8],
    first_run: &mut [u16],
    second_run: &mut [u16],
) -> CommonRecord
    ensures { ExportedCommon first first_list.now second second_list.now word.old word.new first_run.old first_run.new second_run.old second_run.new result }
{
    CommonRecord::from(search::common_word(
        first,
        first_list,
        second,
        second_list,
        word,
        first_run,
        second_run,
    ))
}
