// The search for a shortest common word of a machine and a plain machine.
//
// common_word  the public call

#![tactic(auto)]

ghost use Rattle.common.specs.Common.{CommonWord};
ghost use Rattle.found.specs.Joined.{Joined};

use blocks::numbers::Pairs;
use blocks::searched::Searched;
use blocks::sizes::MOST_KEYS;
use common::Lengths;
use found::{answer, best};
use fsbm::answer::Refusal;
use fsbm::limits::LIST_LENGTH;
use fsbm::machine::Machine;
use fsbm::table::Table;
use least::turns;

// A shortest common word of two machines whose product is m, its transitions at the front of list. It has a frame of its own, so that joining
// does not stand on top of it.
#[inline(never)]
fn search(
    first: Machine,
    first_list: &[u16],
    second: Machine,
    second_list: &[u16],
    m: Machine,
    list: &[u16],
    word: &mut [u8],
    first_run: &mut [u16],
    second_run: &mut [u16],
) -> Result<Option<Lengths>, Refusal>
    requires { Joined first first_list.now second second_list.now m list.now }
    ensures { CommonWord first first_list.now second second_list.now word.old word.new first_run.old first_run.new second_run.old second_run.new result }
{
    let kinds = images::kinds_of(&m.marks, m.states);
    let table = Table { machine: m, list };
    if emptiness::is_barren(&table, kinds) {
        return Ok(None);
    }
    let mut room = [0; MOST_KEYS];
    let searched = Searched::new(&table, kinds, &mut room);
    let mut pairs = Pairs::blank();
    let weights = turns::costs(&searched, &mut pairs);
    let f = best::best(&searched.table.machine.marks, &weights);
    answer::answer(
        first,
        first_list,
        second,
        second_list,
        &searched,
        &weights,
        &mut pairs,
        f,
        word,
        first_run,
        second_run,
    )
}

// The public call: a shortest word that both machines accept, each by runs of its own, at the front of word, with an accepting run of
// the first at the front of first_run and one of the second at the front of second_run; or that no word of any length is accepted by
// both. It refuses 16 (a record and its list break the rules of a table, the first or the second), 10 (the second is not plain), 11 (the
// letter counts differ), 12 (more than 64 joined states), 13 (more than 4,000 joined transitions), in this order; and where there is a
// common word, a shortest of n letters, 18 (word shorter than n), 17 (first_run shorter than 3 × states of the first × (n + 1)), 17
// (second_run shorter than n + 1), in this order, each with the length needed. Which shortest word and which run of the first is left
// open. A refusal and "no common word" leave every slice as it was; so is what stands past the word and the runs.
// Time: that of joining; a round of normal moves and of blocks for each turn of copies; and that of the word and its runs. Memory: on the
// stack, no heap.
pub fn common_word(
    first: Machine,
    first_list: &[u16],
    second: Machine,
    second_list: &[u16],
    word: &mut [u8],
    first_run: &mut [u16],
    second_run: &mut [u16],
) -> Result<Option<Lengths>, Refusal>
    ensures { CommonWord first first_list.now second second_list.now word.old word.new first_run.old first_run.new second_run.old second_run.new result }
{
    let mut list = [0; LIST_LENGTH];
    let m = product::join(first, first_list, second, second_list, &mut list)?;
    search(
        first,
        first_list,
        second,
        second_list,
        m,
        &list,
        word,
        first_run,
        second_run,
    )
}
