// Writes a shortest word and its run from the least weights, from the end: a move or a copy along which the number of the state is
// reached, again and again, until an initial state.
ghost use Rattle.std.specs.Prelude.{◌+◌, ◌<◌, length};
ghost use Rattle.blocks.specs.Settling.{Past};
ghost use Rattle.shortest.specs.Put.{PutReady};
ghost use Rattle.shortest.specs.Write.{Read, Searching, TriedGuess, CopyThere, Guessed, StepReady, StepDone, Aim, Shortest};

use crate::copy::Progress;
use crate::traced::Traced;
use crate::{find, put};
use blocks::numbers::Pairs;
use blocks::sizes::MOST_PAIRS;
use fsbm::machine;

// Writes a normal move by transition k before the places of p.
fn read(list: &[u16], k: usize, p: Progress, word: &mut [u8], run: &mut [u16]) -> Progress
    requires { PutReady list.now k word.old p.letter run.old p.entry }
    ensures { Read list.now k word.old p.letter run.old p.entry word.new run.new result }
{
    let letter = put::put(list, k, word, p.letter, run, p.entry);
    let t = machine::transition_at(list, k);
    Progress {
        state: usize::from(t.from),
        letter,
        entry: p.entry - 1,
    }
}

impl<'a> Traced<'a> {
    // Computes the block of the guess h; whether the number of q is reached along a copy with this guess.
    fn try_guess(&self, pairs: &mut Pairs, q: usize, h: usize) -> bool
        requires { Searching self.now.searched.now.table.machine self.now.searched.now.table.list.now self.now.weights.now.least pairs.old.numbers q × (h < 64) }
        ensures { TriedGuess self.now.searched.now.table.machine self.now.searched.now.table.list.now self.now.searched.now.kinds.buffering self.now.weights.now.least pairs.new.numbers q h result }
    {
        if !stateset::member(self.middles, h) {
            return false;
        }
        let weights = self.weights;
        self.searched
            .block(h, self.searched.kinds.buffering, &weights.least, pairs);
        find::makes(find::number(&pairs.numbers, h, q), 2, weights.cost(q))
    }

    // A guess with a copy along which the number of q is reached, and its block. The guesses are tried from the noted one on.
    fn guess(&self, pairs: &mut Pairs, q: usize, noted: u8) -> usize
        requires { Searching self.now.searched.now.table.machine self.now.searched.now.table.list.now self.now.weights.now.least pairs.old.numbers q × CopyThere self.now.searched.now.table.machine self.now.searched.now.table.list.now self.now.weights.now.least q }
        ensures { Guessed self.now.searched.now.table.machine self.now.searched.now.table.list.now self.now.searched.now.kinds.buffering self.now.weights.now.least pairs.new.numbers q result }
    {
        let first = usize::from(noted);
        for k in 0..64 {
            let h = (first + k) % 64;
            if self.try_guess(pairs, q, h) {
                return h;
            }
        }
        unreachable!()
    }

    // Writes the last piece of a run that ends where p stands before the places of p, and says where it begins. The guess that is noted for
    // its state is tried first.
    fn step(
        &self,
        pairs: &mut Pairs,
        p: Progress,
        word: &mut [u8],
        run: &mut [u16],
        later: &mut [u16; MOST_PAIRS],
    ) -> Progress
        requires { StepReady self.now.searched.now.table.machine self.now.searched.now.table.list.now self.now.weights.now.least pairs.old.numbers p.state word.old p.letter run.old p.entry }
        ensures { StepDone self.now.searched.now.table.machine self.now.searched.now.table.list.now self.now.weights.now.least pairs.new.numbers p.state word.old p.letter run.old p.entry word.new run.new result }
    {
        if let Some(k) = self.find_normal(p.state) {
            let searched = self.searched;
            return read(searched.table.list, k, p, word, run);
        }
        let h = self.guess(pairs, p.state, self.weights.guesses[p.state]);
        self.copy(&pairs.numbers, h, p, word, run, later)
    }

    // Writes a shortest word that leads from an initial state to f, and its run: the word fills its slice, and the run, with its start, its
    // own. pairs and later are room to work in.
    // Time: for each entry the transitions into a state; for each copy a block for each guess that is tried, and for each move of its pair
    // the transitions into two states.
    pub fn write(
        &self,
        pairs: &mut Pairs,
        f: usize,
        word: &mut [u8],
        run: &mut [u16],
        later: &mut [u16; MOST_PAIRS],
    )
        requires { Past self.now.searched.now.table.machine pairs.old.numbers × Aim self.now.searched.now.table.machine self.now.searched.now.table.list.now self.now.weights.now.least f (length word.old) (length run.old) }
        ensures { Shortest self.now.searched.now.table.machine self.now.searched.now.table.list.now f word.new run.new }
    {
        let mut p = Progress {
            state: f,
            letter: word.len(),
            entry: run.len(),
        };
        // No range: an entry a turn, back to a state without weight.
        while 0 < self.weights.cost(p.state) {
            p = self.step(pairs, p, word, run, later);
        }
        run[0] = p.state as u16;
    }
}
