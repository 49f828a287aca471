// A number for each state, lowered step by step. The states that are lowered are noted in a set.
ghost use Rattle.std.specs.Prelude.{◌+◌, ◌*◌, ◌≤◌, ◌<◌, ◌≡◌, length};
ghost use Rattle.pieces.specs.Pairs.{weigh};
ghost use Rattle.pieces.specs.Blocks.{nothing};
ghost use Rattle.least.specs.Falls.{Falls, Single, Step, Steps, NormalFrom, Enterable};

use blocks::searched::Searched;
use blocks::sizes::{LETTER, MOST_STATES, NOTHING};
use stateset::StateSet;

// Lowers the number of q to v and adds q to the set, where v is less; the set then.
pub fn fall(d: &mut [u64; MOST_STATES], got: StateSet, q: usize, v: u64) -> StateSet
    requires { q < 64 }
    ensures { Falls (Single q v) (Single q v) d.old got d.new result }
{
    if d[q] <= v {
        return got;
    }
    d[q] = v;
    stateset::add(got, q)
}

// The weight of a move by the letter x.
pub fn weight(x: u16) -> u64
    ensures { (result ≡ weigh x) × (result ≤ 4294967297) }
{
    if x == 0 { 1 } else { LETTER }
}

// The same for the state that transition k enters, if it is a member of may, with n and the weight of the transition for v.
fn step(
    list: &[u16],
    k: usize,
    may: StateSet,
    n: u64,
    d: &mut [u64; MOST_STATES],
    got: StateSet,
) -> StateSet
    requires { (k * 3 + 3 ≤ length list.now) × (n < nothing) }
    ensures { Falls (Step list.now k may n) (Step list.now k may n) d.old got d.new result }
{
    let to = usize::from(list[k * 3 + 2]);
    if !stateset::member(may, to) {
        return got;
    }
    fall(d, got, to, n + weight(list[k * 3 + 1]))
}

// The same for the transitions of lo, .., hi - 1.
fn steps(
    list: &[u16],
    lo: usize,
    hi: usize,
    may: StateSet,
    n: u64,
    d: &mut [u64; MOST_STATES],
    got: StateSet,
) -> StateSet
    requires { (hi * 3 ≤ length list.now) × (n < nothing) }
    ensures { Falls (Steps list.now lo hi may n) (Steps list.now lo hi may n) d.old got d.new result }
{
    let mut all = got;
    for k in lo..hi {
        all = step(list, k, may, n, d, all);
    }
    all
}

// The states that a normal move from q may enter: h has the matching states.
fn enterable(h: StateSet, q: usize) -> StateSet
    ensures { Enterable h q result }
{
    let all = stateset::full(64);
    if stateset::member(h, q) {
        stateset::difference(all, h)
    } else {
        all
    }
}

// Lowers numbers along the normal moves from q, and adds the states that are lowered to the set; the set then.
pub fn normal(searched: &Searched, q: usize, d: &mut [u64; MOST_STATES], got: StateSet) -> StateSet
    requires { q < 64 }
    ensures { Falls (NormalFrom searched.now.table.machine searched.now.table.list.now d.old q) (NormalFrom searched.now.table.machine searched.now.table.list.now d.old q) d.old got d.new result }
{
    if searched.table.machine.states <= q || stateset::member(searched.kinds.buffering, q) {
        return got;
    }
    let n = d[q];
    if NOTHING <= n {
        return got;
    }
    let stride = searched.table.machine.letters + 1;
    let lo = usize::from(searched.index[q * stride]);
    let hi = usize::from(searched.index[q * stride + stride]);
    let may = enterable(searched.kinds.matching, q);
    steps(searched.table.list, lo, hi, may, n, d, got)
}
