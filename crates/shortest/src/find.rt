// Transitions, and moves of a pair, along which a number is reached exactly: its end's number is its start's number and its weight.
// Each finder goes through the transitions that enter a state.
ghost use Rattle.std.specs.Prelude.{ℕ, ◌+◌, ◌<◌, ◌≡◌, eqb};
ghost use Rattle.fsbm.specs.Machine.{transition_at};
ghost use Rattle.pieces.specs.Blocks.{cell};
ghost use Rattle.shortest.specs.Find.{FindsInto, Finds, Tried, normal_test, NormalFits, store_test, StoreFits, match_test, MatchFits, LetterStep, LetterFits, Backs};

use crate::traced::Traced;
use blocks::sizes::{MOST_PAIRS, PAIR};
use fsbm::machine;
use least::fall;

// The moves of a pair's two halves, each by its transition; a half without one stands still.
#[derive(Clone, Copy, Debug, PartialEq, Eq)]
pub struct Halves {
    pub storing: Option<usize>,
    pub matching: Option<usize>,
}

// Whether v and w make the number that is wanted.
pub fn makes(v: u64, w: u64, want: u64) -> bool
    ensures { result ≡ eqb (v + w) want }
{
    w <= want && v == want - w
}

// The number of the pair (s, t) in a block.
pub fn number(b: &[u64; MOST_PAIRS], s: usize, t: usize) -> u64
    requires { (s < 64) × (t < 64) }
    ensures { result ≡ cell b.now s t }
{
    b[s * 64 + t]
}

impl<'a> Traced<'a> {
    // The first transition into q that passes a test.
    fn find_into<F: Fn(usize) -> bool>(&self, q: usize, test: F) -> Option<usize>
        requires q_bound { q < 64 }
        requires callable { (k : ℕ) → k < self.now.searched.now.table.machine.transitions → F.pre test k }
        ensures { FindsInto self.now.searched.now.table.machine.transitions self.now.searched.now.table.list.now q (F.post test) result }
    {
        let n = self.searched.table.machine.transitions;
        let mut k = usize::from(self.links[q]);
        // No iterator of its own: its `find` would need a law for each of its four uses, where this loop needs one.
        while k < n {
            if test(k) {
                return Some(k);
            }
            k = usize::from(self.links[64 + k]);
        }
        None
    }

    // Whether transition k is taken in normal mode and its weight and the number where it begins make the number that is wanted.
    #[tactic(auto, unfolding(crate::specs::Find::normal_test))]
    fn normal_fits(&self, want: u64, k: usize) -> bool
        requires { k < self.now.searched.now.table.machine.transitions }
        ensures { result ≡ normal_test self.now.searched.now.table.machine.marks self.now.searched.now.table.list.now self.now.weights.now.least want k }
    {
        let marks = &self.searched.table.machine.marks;
        let t = self.searched.table.transition(k);
        let p = usize::from(t.from);
        !machine::both_matching(marks, t)
            && !machine::is_buffering(marks, p)
            && makes(self.weights.cost(p), fall::weight(t.letter), want)
    }

    // The same of a transition by epsilon in buffering mode, for a pair whose matching half is in t.
    #[tactic(auto, unfolding(crate::specs::Find::store_test))]
    fn store_fits(&self, b: &[u64; MOST_PAIRS], t: usize, want: u64, k: usize) -> bool
        requires { (k < self.now.searched.now.table.machine.transitions) × (t < 64) }
        ensures { result ≡ store_test self.now.searched.now.table.machine.marks self.now.searched.now.table.list.now b.now t want k }
    {
        let marks = &self.searched.table.machine.marks;
        let u = self.searched.table.transition(k);
        !machine::both_matching(marks, u)
            && !machine::is_buffering(marks, usize::from(u.to))
            && u.letter == 0
            && makes(number(b, usize::from(u.from), t), 1, want)
    }

    // The same of a transition by x in emptying mode, with the weight w, for a pair whose storing half is in s.
    #[tactic(auto, unfolding(crate::specs::Find::match_test))]
    fn match_fits(
        &self,
        b: &[u64; MOST_PAIRS],
        s: usize,
        x: u16,
        w: u64,
        want: u64,
        k: usize,
    ) -> bool
        requires { (k < self.now.searched.now.table.machine.transitions) × (s < 64) }
        ensures { result ≡ match_test self.now.searched.now.table.machine.marks self.now.searched.now.table.list.now b.now s x w want k }
    {
        let u = self.searched.table.transition(k);
        machine::both_matching(&self.searched.table.machine.marks, u)
            && u.letter == x
            && makes(number(b, s, usize::from(u.from)), w, want)
    }

    // A transition into q in normal mode whose weight and the number where it begins make the number of q.
    pub fn find_normal(&self, q: usize) -> Option<usize>
        requires { q < 64 }
        ensures { Finds self.now.searched.now.table.machine.transitions (NormalFits self.now.searched.now.table.machine self.now.searched.now.table.list.now self.now.weights.now.least q) result }
    {
        let want = self.weights.cost(q);
        self.find_into(
            q,
            |k|
                requires { k < self.now.searched.now.table.machine.transitions }
                ensures { result ≡ normal_test self.entry.now.searched.now.table.machine.marks self.entry.now.searched.now.table.list.now self.entry.now.weights.now.least want k }
            { self.normal_fits(want, k) },
        )
    }

    // A transition into s by epsilon in buffering mode, the matching half in t.
    fn find_store(&self, b: &[u64; MOST_PAIRS], s: usize, t: usize, want: u64) -> Option<usize>
        requires { (s < 64) × (t < 64) }
        ensures { Finds self.now.searched.now.table.machine.transitions (StoreFits self.now.searched.now.table.machine self.now.searched.now.table.list.now b.now s t want) result }
    {
        self.find_into(
            s,
            |k|
                requires { (k < self.now.searched.now.table.machine.transitions) × (t < 64) }
                ensures { result ≡ store_test self.entry.now.searched.now.table.machine.marks self.entry.now.searched.now.table.list.now b.entry.now t want k }
            { self.store_fits(b, t, want, k) },
        )
    }

    // A transition into t by x in emptying mode, with the weight w, the storing half in s.
    fn find_match(
        &self,
        b: &[u64; MOST_PAIRS],
        s: usize,
        t: usize,
        x: u16,
        w: u64,
        want: u64,
    ) -> Option<usize>
        requires { (s < 64) × (t < 64) }
        ensures { Finds self.now.searched.now.table.machine.transitions (MatchFits self.now.searched.now.table.machine self.now.searched.now.table.list.now b.now s t x w want) result }
    {
        self.find_into(
            t,
            |k|
                requires { (k < self.now.searched.now.table.machine.transitions) × (s < 64) }
                ensures { result ≡ match_test self.entry.now.searched.now.table.machine.marks self.entry.now.searched.now.table.list.now b.entry.now s x w want k }
            { self.match_fits(b, s, x, w, want, k) },
        )
    }

    // Whether transition k is taken by a letter in buffering mode, and a transition into t by this letter in emptying mode, so that both
    // make the number that is wanted.
    fn letter_fits(&self, b: &[u64; MOST_PAIRS], t: usize, want: u64, k: usize) -> bool
        requires { (t < 64) × (k < self.now.searched.now.table.machine.transitions) }
        ensures { Tried (LetterStep self.now.searched.now.table.machine self.now.searched.now.table.list.now b.now t want k) result }
    {
        let marks = &self.searched.table.machine.marks;
        let u = self.searched.table.transition(k);
        if u.letter == 0 {
            return false;
        }
        if machine::both_matching(marks, u) {
            return false;
        }
        if machine::is_buffering(marks, usize::from(u.to)) {
            return false;
        }
        let j = self.find_match(b, usize::from(u.from), t, u.letter, PAIR, want);
        j.is_some()
    }

    // A transition into s by a letter in buffering mode that has such a partner.
    fn find_letter(&self, b: &[u64; MOST_PAIRS], s: usize, t: usize, want: u64) -> Option<usize>
        requires { (s < 64) × (t < 64) }
        ensures { Finds self.now.searched.now.table.machine.transitions (LetterFits self.now.searched.now.table.machine self.now.searched.now.table.list.now b.now s t want) result }
    {
        self.find_into(
            s,
            |k|
                requires { (k < self.now.searched.now.table.machine.transitions) × (t < 64) }
                ensures { Tried (LetterStep self.entry.now.searched.now.table.machine self.entry.now.searched.now.table.list.now b.entry.now t want k) result }
            { self.letter_fits(b, t, want, k) },
        )
    }

    // One move of the pair back from (s, t) along which its number is reached.
    pub fn back(&self, b: &[u64; MOST_PAIRS], s: usize, t: usize) -> Halves
        requires { (s < 64) × (t < 64) }
        ensures { Backs self.now.searched.now.table.machine self.now.searched.now.table.list.now b.now s t result.storing result.matching }
    {
        let want = number(b, s, t);
        let storing = self.find_store(b, s, t, want);
        if storing.is_some() {
            return Halves {
                storing,
                matching: None,
            };
        }
        let matching = self.find_match(b, s, t, 0, 1, want);
        if matching.is_some() {
            return Halves {
                storing: None,
                matching,
            };
        }
        let Some(k) = self.find_letter(b, s, t, want) else {
            return Halves {
                storing: None,
                matching: None,
            };
        };
        let u = self.searched.table.transition(k);
        let matching = self.find_match(b, usize::from(u.from), t, u.letter, PAIR, want);
        Halves {
            storing: Some(k),
            matching,
        }
    }
}
