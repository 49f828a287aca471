// Writes a whole copy of a least run, from its end: the two halves are walked back side by side through a settled block.
ghost use Rattle.std.specs.Prelude.{◌+◌, ◌<◌, ◌≡◌, ◌≤◌, length};
ghost use Rattle.shortest.specs.Copy.{begun_test, MatchedReady, Matched, StoredReady, KeptOrNot, Going, Gone, CopyReady, Stepped};

use crate::traced::Traced;
use crate::{find, put};
use blocks::sizes::MOST_PAIRS;
use fsbm::config::{BACK_TO_NORMAL, BEGIN_BUFFERING, BEGIN_EMPTYING};
use fsbm::machine;

// How far the two halves of a copy are walked back: their states, the places of the first letter and of the first entry that are written,
// and how many entries of the storing half are kept for later.
#[derive(Clone, Copy, Debug, PartialEq, Eq)]
pub struct Walk {
    pub storing: usize,
    pub matching: usize,
    pub letter: usize,
    pub entry: usize,
    pub kept: usize,
}

// How far a run is written, from its end: the state there, the places of the first letter and of the first entry.
#[derive(Clone, Copy, Debug, PartialEq, Eq)]
pub struct Progress {
    pub state: usize,
    pub letter: usize,
    pub entry: usize,
}

// Writes a move of the matching half by transition k, where there is one.
fn matched(list: &[u16], k: Option<usize>, word: &mut [u8], run: &mut [u16], w: Walk) -> Walk
    requires { MatchedReady list.now k word.old run.old w }
    ensures { Matched list.now k word.old run.old w word.new run.new result }
{
    let Some(k) = k else {
        return w;
    };
    let letter = put::put(list, k, word, w.letter, run, w.entry);
    let t = machine::transition_at(list, k);
    Walk {
        matching: usize::from(t.from),
        letter,
        entry: w.entry - 1,
        ..w
    }
}

// Keeps a move of the storing half by transition k, where there is one.
fn stored(list: &[u16], k: Option<usize>, later: &mut [u16; MOST_PAIRS], w: Walk) -> Walk
    requires { StoredReady k w }
    ensures { KeptOrNot list.now k later.old w later.new result }
{
    let Some(k) = k else {
        return w;
    };
    later[w.kept] = k as u16;
    let t = machine::transition_at(list, k);
    Walk {
        storing: usize::from(t.from),
        kept: w.kept + 1,
        ..w
    }
}

impl<'a> Traced<'a> {
    // Whether a copy with the guess h has just begun at the pair (s, t), and this makes the pair's number.
    #[tactic(auto, unfolding(crate::specs::Copy::begun_test))]
    fn begun(&self, b: &[u64; MOST_PAIRS], h: usize, s: usize, t: usize) -> bool
        requires { (s < 64) × (t < 64) }
        ensures { result ≡ begun_test self.now.searched.now.table.machine.marks self.now.weights.now.least b.now h s t }
    {
        t == h
            && machine::is_buffering(&self.searched.table.machine.marks, s)
            && find::makes(self.weights.cost(s), 1, find::number(b, s, t))
    }

    // Walks the two halves of a copy with the guess h back from where p stands to where it begins. The entries and letters of the matching
    // half are written before the places of p, the entries of the storing half are kept.
    fn walk_back(
        &self,
        b: &[u64; MOST_PAIRS],
        h: usize,
        p: Progress,
        word: &mut [u8],
        run: &mut [u16],
        later: &mut [u16; MOST_PAIRS],
    ) -> Walk
        requires { Going self.now.searched.now.table.machine self.now.searched.now.table.list.now self.now.weights.now.least b.now h p.state word.old p.letter run.old p.entry }
        ensures { Gone self.now.searched.now.table.machine self.now.searched.now.table.list.now self.now.weights.now.least b.now h p.state word.old p.letter run.old p.entry word.new run.new later.new result }
    {
        let searched = self.searched;
        let list = searched.table.list;
        let mut w = Walk {
            storing: h,
            matching: p.state,
            letter: p.letter,
            entry: p.entry,
            kept: 0,
        };
        // No range: an entry a turn, back to where storing begins.
        while !self.begun(b, h, w.storing, w.matching) {
            let v = self.back(b, w.storing, w.matching);
            w = matched(list, v.matching, word, run, w);
            w = stored(list, v.storing, later, w);
        }
        w
    }

    // Writes a copy with the guess h that ends where p stands, along which the number of its state is reached, before the places of p, and
    // says where it begins.
    pub fn copy(
        &self,
        b: &[u64; MOST_PAIRS],
        h: usize,
        p: Progress,
        word: &mut [u8],
        run: &mut [u16],
        later: &mut [u16; MOST_PAIRS],
    ) -> Progress
        requires { CopyReady self.now.searched.now.table.machine self.now.searched.now.table.list.now self.now.weights.now.least b.now h p.state word.old p.letter run.old p.entry }
        ensures { Stepped self.now.searched.now.table.machine self.now.searched.now.table.list.now self.now.weights.now.least p.state word.old p.letter run.old p.entry word.new run.new result }
    {
        run[p.entry - 1] = BACK_TO_NORMAL;
        let end = Progress {
            entry: p.entry - 1,
            ..p
        };
        let w = self.walk_back(b, h, end, word, run, later);
        let j = w.letter;
        let e = w.entry - 1;
        run[e] = BEGIN_EMPTYING;
        put::again(word, j, p.letter - j);
        put::unload(later, w.kept, run, e);
        let f = e - w.kept - 1;
        run[f] = BEGIN_BUFFERING;
        Progress {
            state: w.storing,
            letter: j - (p.letter - j),
            entry: f,
        }
    }
}
