// The answer of the search, from the least weights of the product.
ghost use Rattle.std.specs.Prelude.{◌+◌, ◌*◌, ◌/◌, ◌%◌, ◌≤◌, ◌<◌, ◌≡◌};
ghost use Rattle.pieces.specs.Pairs.{unit};
ghost use Rattle.common.specs.Common.{CommonWord};
ghost use Rattle.found.specs.Weighed.{Weighed};

use crate::write;
use blocks::numbers::Pairs;
use blocks::searched::Searched;
use common::Lengths;
use fsbm::answer::Refusal;
use fsbm::machine::Machine;
use least::turns::Weights;

// The weight of a letter: a least weight is letters × 2^32 + moves.
const UNIT: u64 = 4294967296;

// The letters of a word of this weight.
fn letters_of(c: u64) -> usize
    ensures { result ≡ c / unit }
{
    (c / UNIT) as usize
}

// The entries of its run, the start state counted as one.
fn entries_of(c: u64) -> usize
    ensures { result ≡ c % unit + 1 }
{
    (c % UNIT) as usize + 1
}

// The length of a run slice that a word of n letters needs, on a machine with this many states.
fn run_length(states: usize, n: usize) -> usize
    requires { (states ≤ 64) × (3 * states * (n + 1) < unit) × (n < unit) }
    ensures { result ≡ 3 * states * (n + 1) }
{
    3 * states * (n + 1)
}

// No common word, where no final state has a number; else a shortest one with its runs, or the first slice that is too short: 18 the word's,
// 17 the first run's, 17 the second run's. searched is the product, weights its least weights, f the final state with the least, if
// one has a number; pairs is room to work in.
pub fn answer(
    first: Machine,
    first_list: &[u16],
    second: Machine,
    second_list: &[u16],
    searched: &Searched,
    weights: &Weights,
    pairs: &mut Pairs,
    f: Option<usize>,
    word: &mut [u8],
    first_run: &mut [u16],
    second_run: &mut [u16],
) -> Result<Option<Lengths>, Refusal>
    requires { Weighed first first_list.now second second_list.now searched.now.table.machine searched.now.table.list.now weights.now.least pairs.old.numbers f }
    ensures { CommonWord first first_list.now second second_list.now word.old word.new first_run.old first_run.new second_run.old second_run.new result }
{
    let Some(f) = f else {
        return Ok(None);
    };
    let c = weights.cost(f);
    let n = letters_of(c);
    if word.len() < n {
        return Err(Refusal::ShortWord(n));
    }
    let needed = run_length(first.states, n);
    if first_run.len() < needed {
        return Err(Refusal::ShortRun(needed));
    }
    let plain = n + 1;
    if second_run.len() < plain {
        return Err(Refusal::ShortRun(plain));
    }
    let e = entries_of(c);
    write::write_runs(
        first,
        first_list,
        second,
        second_list,
        searched,
        weights,
        pairs,
        f,
        &mut word[..n],
        &mut first_run[..e],
        &mut second_run[..plain],
    );
    Ok(Some(Lengths {
        letters: n,
        first: e,
        second: plain,
    }))
}
