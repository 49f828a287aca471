// The numbers of a block, and loops that lower them. A block has a number for each pair of states, 64 a row; a row has a set of marks.
ghost use Rattle.std.specs.Prelude.{◌+◌, ◌*◌, ◌≤◌, ◌<◌, length};
ghost use Rattle.stateset.specs.Set.{In};
ghost use Rattle.blocks.specs.Numbers.{Lowers, One, Put, Enter, Spread};
ghost use Rattle.blocks.specs.Settling.{Blank, Scanned};

use crate::sizes::{MOST_PAIRS, MOST_STATES, NOTHING};
use stateset::StateSet;

// The numbers of a block, and for each row the set of its marked pairs.
#[derive(Drop)]
pub struct Pairs {
    pub numbers: [u64; MOST_PAIRS],
    pub marks: [StateSet; MOST_STATES],
}

// The pairs of one row whose moves are looked at: the storing half is in one state, the matching half in a member of a set. A number of
// top and above is not looked at.
#[derive(Clone, Copy, Debug, PartialEq, Eq)]
pub struct Row {
    pub storing: usize,
    pub matching: StateSet,
    pub top: u64,
}

impl Pairs {
    // A block in which nothing stands.
    pub fn blank() -> Pairs
        ensures { Blank result.numbers }
    {
        let mut pairs = Pairs {
            numbers: [0; MOST_PAIRS],
            marks: [0; MOST_STATES],
        };
        pairs.numbers.fill(NOTHING);
        pairs
    }

    // The first row from k on, below n, that has a mark.
    fn scan(&self, k: usize, n: usize) -> Option<usize>
        requires { n ≤ 64 }
        ensures { Scanned self.now.marks k n result }
    {
        (k..n).find(|&s| self.marks[s] != 0)
    }

    // The next row below n, from k on and then from the first on, that has a mark.
    pub fn next_row(&self, k: usize, n: usize) -> Option<usize>
        requires { n ≤ 64 }
        ensures { Scanned self.now.marks 0 n result }
    {
        self.scan(k, n).or_else(|| self.scan(0, n))
    }

    // Lowers the number of the pair (s, t) to v and marks the pair, where v is less.
    pub fn lower(&mut self, s: usize, t: usize, v: u64)
        requires { (s < 64) × (t < 64) }
        ensures { Lowers (One s t v) self.old.numbers self.old.marks self.new.numbers self.new.marks }
    {
        let i = s * 64 + t;
        if self.numbers[i] <= v {
            return;
        }
        self.numbers[i] = v;
        self.marks[s] = stateset::add(self.marks[s], t);
    }

    // Lowers in row s the number of each member of got to its number in p.
    pub fn put(&mut self, s: usize, got: StateSet, p: &[u64; MOST_STATES])
        requires { s < 64 }
        ensures { Lowers (Put s (In got) p.now) self.old.numbers self.old.marks self.new.numbers self.new.marks }
    {
        for t in stateset::members(got) {
            self.lower(s, t, p[t]);
        }
    }

    // The same, where s is a member of may.
    fn enter(&mut self, s: usize, may: StateSet, got: StateSet, p: &[u64; MOST_STATES])
        ensures { Lowers (Enter may got p.now s) self.old.numbers self.old.marks self.new.numbers self.new.marks }
    {
        if !stateset::member(may, s) {
            return;
        }
        self.put(s, got, p);
    }

    // The same in each row that a transition of lo, .., hi - 1 enters.
    pub fn spread(
        &mut self,
        list: &[u16],
        lo: usize,
        hi: usize,
        may: StateSet,
        got: StateSet,
        p: &[u64; MOST_STATES],
    )
        requires { hi * 3 ≤ length list.now }
        ensures { Lowers (Spread list.now lo hi may got p.now) self.old.numbers self.old.marks self.new.numbers self.new.marks }
    {
        for k in lo..hi {
            self.enter(usize::from(list[k * 3 + 2]), may, got, p);
        }
    }
}
