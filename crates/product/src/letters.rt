// The transitions of a table by state and letter. A state and a letter are one number, the key: state × 256 + letter. A set of keys
// has 64 of them in a word, so that the letters of one state are four words.
//
// key              the key of a transition
// key_set          the keys of all transitions: by which letters each state is left
// note_starts      the first transition of each key
// common_letters   the letters by which a state of the first moves at a state of the second
// next_letter      the next letter of a set
ghost use Rattle.std.specs.Prelude.{ℕ, ◌+◌, ◌*◌, ◌≤◌, ◌<◌, ◌≡◌, ◌↔◌};
ghost use Rattle.stateset.specs.Set.{In};
ghost use Rattle.product.specs.Letters.{HasKey, MayPair, KeySet, Starts, Common, Least, LeastFrom};

use fsbm::machine::Transition;
use fsbm::table::Table;
use std::array;

// The keys of a state and a letter, 256 for each state.
pub const KEYS: usize = 16384;

// The sets of 64 keys that hold them.
pub const KEY_SETS: usize = 256;

// The key of a transition: its from_state and letter as one number.
pub fn key(t: Transition) -> usize
    ensures { result ≡ t.from * 256 + t.letter }
{
    usize::from(t.from) * 256 + usize::from(t.letter)
}

// The set of the keys of all transitions.
pub fn key_set(t: &Table) -> [u64; KEY_SETS]
    ensures { KeySet t.now.list.now t.now.machine.transitions result }
{
    let mut words = [0; KEY_SETS];
    for k in 0..t.machine.transitions {
        let y = key(t.transition(k));
        words[y / 64] = stateset::add(words[y / 64], y % 64);
    }
    words
}

// Notes at the key of each transition the first that has it: the last transition is noted first.
pub fn note_starts(t: &Table, starts: &mut [u16; KEYS])
    ensures { Starts t.now.list.now t.now.machine.transitions starts.new }
{
    for k in (0..t.machine.transitions).rev() {
        let y = key(t.transition(k));
        starts[y] = k as u16;
    }
}

// Word w, of four, of the letters by which state p of the first moves at state r of the second: epsilon, by which it moves alone, and
// those that r has too.
fn common_word(
    first: &[u64; KEY_SETS],
    p: usize,
    second: &[u64; KEY_SETS],
    r: usize,
    w: usize,
) -> u64
    requires { (p < 64) × (r < 64) × (w < 4) }
    ensures { (c : ℕ) → c < 64 → In result c ↔ (HasKey first.now (p * 256 + (w * 64 + c)) × MayPair second.now r (w * 64 + c)) }
{
    let own = first[p * 4 + w];
    let other = second[r * 4 + w];
    if w == 0 {
        return stateset::intersection(own, stateset::add(other, 0));
    }
    stateset::intersection(own, other)
}

// The letters by which state p of the first moves at state r of the second.
pub fn common_letters(
    first: &[u64; KEY_SETS],
    p: usize,
    second: &[u64; KEY_SETS],
    r: usize,
) -> [u64; 4]
    requires { (p < 64) × (r < 64) }
    ensures { Common first.now p second.now r result }
{
    array::from_fn(|w| common_word(first, p, second, r, w))
}

// The least member of a word that is not below x, if there is one.
fn least_from(word: u64, x: usize) -> Option<usize>
    requires { x < 64 }
    ensures { LeastFrom word x result }
{
    let rest = word >> x;
    if rest == 0 {
        return None;
    }
    Some(x + stateset::lowest(rest) as usize)
}

// The least letter of the set that is not below x, if there is one.
// Time: a step a word, at most four.
pub fn next_letter(letters: &[u64; 4], x: usize) -> Option<usize>
    requires { x ≤ 256 }
    ensures { Least letters.now x result }
{
    let mut from = x % 64;
    for w in x / 64..4 {
        if let Some(c) = least_from(letters[w], from) {
            return Some(w * 64 + c);
        }
        from = 0;
    }
    None
}
