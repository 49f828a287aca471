// The states that the runs on a word reach, for other languages.
ghost use Rattle.std.specs.Prelude.{◌≡◌, length};
ghost use Rattle.reach.specs.Reaching.{reach_after, reach_values};
ghost use Rattle.exports.specs.Records.{counted};

use crate::records::Counted;
use fsbm::machine::Machine;
use reach::answer;

// reach::answer::reach: how many numbers of the slice hold the sets. It refuses 16, 9, 8 and 36, in this order.
#[unsafe(no_mangle)]
pub extern "C" fn zagvirk_reach(
    machine: Machine,
    list: &[u16],
    word: &[u8],
    sets: &mut [u64],
) -> Counted
    ensures { (result ≡ counted (reach_values machine list.now word.now (length sets.old)))
        × (sets.new ≡ reach_after machine list.now word.now sets.old) }
{
    Counted::from(answer::reach(machine, list, word, sets))
}
