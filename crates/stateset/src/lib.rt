// Sets of states, each a 64-bit number, one bit a state: the state q is a member of the set if the bit of value 2^q is set in it.
// The states are 0 to 63. Every function takes every input; a number of 64 and above is no state: no member, and not added.
// Each takes a few instructions and no memory. The laws of sets, by membership, stand in specs/Set/Laws.antt.

#![tactic(auto)]

mod iter;

ghost use Rattle.std.specs.Prelude.{◌≡◌, ◌⊎◌, ◌<◌};
ghost use Rattle.std.specs.Int.Bits.{bit_and, bit_or};
ghost use Rattle.stateset.specs.Set.{width, In, has, added, removed, without, below, lowest_of, SetIs, Lowest};

pub use iter::Members;

// A set of states. It stays a plain number: the C interface lends lists of such numbers, and the sets that the calls take are stated as
// numbers of 64 bits.
pub type StateSet = u64;

// How many states a set can hold.
pub const WIDTH: usize = 64;

// The set with no member.
pub fn empty() -> StateSet
    ensures { SetIs result 0 (λ p. ⊥) }
{
    0
}

// The states below n: all states where n is 64 or more.
pub fn full(n: usize) -> StateSet
    ensures { SetIs result (below n) (λ p. (p < n) × (p < width)) }
{
    if n < WIDTH {
        (1u64 << n) - 1
    } else {
        0xffff_ffff_ffff_ffff
    }
}

// Whether q is a member of the set.
pub fn member(set: StateSet, q: usize) -> bool
    ensures { result ≡ has set q }
{
    if q < WIDTH {
        (set >> q) % 2 == 1
    } else {
        false
    }
}

// The set with the state q.
pub fn add(set: StateSet, q: usize) -> StateSet
    ensures { SetIs result (added set q) (λ p. In set p ⊎ ((p ≡ q) × (p < width))) }
{
    if q < WIDTH { set | (1u64 << q) } else { set }
}

// The set of the state q alone.
pub fn single(q: usize) -> StateSet
    ensures { SetIs result (added 0 q) (λ p. (p ≡ q) × (p < width)) }
{
    add(empty(), q)
}

// The set without its lowest member; empty where it is empty. The step of a loop over the members.
pub fn without_lowest(set: StateSet) -> StateSet
    ensures { SetIs result (removed set (lowest_of set)) (λ p. In set p × (p ≡ lowest_of set → ⊥)) }
{
    if set == 0 {
        return 0;
    }
    set & (set - 1)
}

// The members of a and those of b.
pub fn union(a: StateSet, b: StateSet) -> StateSet
    ensures { SetIs result (bit_or a b) (λ p. In a p ⊎ In b p) }
{
    a | b
}

// The members that a and b share.
pub fn intersection(a: StateSet, b: StateSet) -> StateSet
    ensures { SetIs result (bit_and a b) (λ p. In a p × In b p) }
{
    a & b
}

// The members of a that are no members of b.
pub fn difference(a: StateSet, b: StateSet) -> StateSet
    ensures { SetIs result (without a b) (λ p. In a p × (In b p → ⊥)) }
{
    a & !b
}

// The lowest member of the set, or 64 where it has none.
pub fn lowest(set: StateSet) -> u32
    ensures { Lowest set result }
{
    u64::trailing_zeros(set)
}

// The members of the set, from the lowest on.
pub fn members(set: StateSet) -> Members
    ensures { result.rest ≡ set }
{
    Members { rest: set }
}
