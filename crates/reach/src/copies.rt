// The states that runs reach while storing and while matching, from the states that they reach in normal mode: copies are followed start by
// start, and for each start end by end of what is stored.
ghost use Rattle.std.specs.Prelude.{◌+◌, ◌≤◌, ◌<◌, ◌≡◌, length};
ghost use Rattle.images.specs.Graph.{Fitting, From};
ghost use Rattle.images.specs.Moves.{graph_of};
ghost use Rattle.subsets.specs.Memo.{Holds, SamePlaces};
ghost use Rattle.decide.specs.Reach.{Rooms, MatchingFrom};
ghost use Rattle.reach.specs.Copies.{Added, StoreTo, MatchTo, SomeStore, SomeMatch};

use fsbm::config::Mode;
use fsbm::limits::POSITIONS;
use images::Targets;
use stateset::StateSet;
use subsets::{Memo, Subset};

// Adds to the sets what matching reaches that begins at position j in the matching states of s, with the letters from i up to j in the buffer.
// Time: one step of a set for each letter from i on that stands also from j on.
fn match_from(
    t: &Targets,
    memo: &mut Memo,
    word: &[u8],
    matching: &mut [StateSet; POSITIONS],
    i: usize,
    j: usize,
    s: Subset,
)
    requires { Rooms t.now.sets.now t.now.states word.now × (i ≤ j) × (j ≤ length word.now) × (length word.now ≤ 255) × Fitting 256 matching.old
        × Holds (graph_of t.now) memo.old }
    ensures { Added matching.old matching.new (λ p. From s.set (λ o q. MatchingFrom (graph_of t.now) word.now i j o p q))
        × Holds (graph_of t.now) memo.new × SamePlaces memo.old memo.new }
{
    let mut near = memo.begin(t, Mode::Emptying, s);
    let mut k = i;
    let mut p = j;
    // No range: it ends where no state is left.
    while near.set != 0 {
        matching[p] = stateset::union(matching[p], near.set);
        if j <= k {
            return;
        }
        if word.len() <= p {
            return;
        }
        let x = word[k];
        if word[p] != x {
            return;
        }
        near = memo.read(t, Mode::Emptying, near, x);
        k += 1;
        p += 1;
    }
}

// Adds to the sets what the copies reach, while storing and while matching, that begin at position i in the buffering states of near.
// Time: for each later position one step of a set, and the time of the matching that begins there.
fn copies_at(
    t: &Targets,
    memo: &mut Memo,
    word: &[u8],
    storing: &mut [StateSet; POSITIONS],
    matching: &mut [StateSet; POSITIONS],
    i: usize,
    near: Subset,
)
    requires { Rooms t.now.sets.now t.now.states word.now × (i ≤ length word.now) × (length word.now ≤ 255) × Fitting 256 storing.old × Fitting 256 matching.old
        × Holds (graph_of t.now) memo.old }
    ensures { Added storing.old storing.new (StoreTo (graph_of t.now) word.now i near.set)
        × Added matching.old matching.new (MatchTo (graph_of t.now) word.now i near.set)
        × Holds (graph_of t.now) memo.new × SamePlaces memo.old memo.new }
{
    let mut s = memo.begin(t, Mode::Buffering, near);
    let mut j = i;
    // No range: it ends where no state is left.
    while s.set != 0 {
        storing[j] = stateset::union(storing[j], s.set);
        match_from(t, memo, word, matching, i, j, s);
        if word.len() <= j {
            return;
        }
        s = memo.read(t, Mode::Buffering, s, word[j]);
        j += 1;
    }
}

// Adds to the sets what all copies reach, from the states that are reached at each position in normal mode.
pub fn copies(
    t: &Targets,
    memo: &mut Memo,
    word: &[u8],
    normal: &[StateSet; POSITIONS],
    storing: &mut [StateSet; POSITIONS],
    matching: &mut [StateSet; POSITIONS],
)
    requires { Rooms t.now.sets.now t.now.states word.now × (length word.now ≤ 255) × (length normal.now ≡ 256) × Fitting 256 storing.old × Fitting 256 matching.old
        × Holds (graph_of t.now) memo.old }
    ensures { Added storing.old storing.new (SomeStore (graph_of t.now) word.now normal.now (length word.now + 1))
        × Added matching.old matching.new (SomeMatch (graph_of t.now) word.now normal.now (length word.now + 1))
        × Holds (graph_of t.now) memo.new × SamePlaces memo.old memo.new }
{
    for i in 0..=word.len() {
        let near = Subset {
            set: normal[i],
            row: 0,
        };
        copies_at(t, memo, word, storing, matching, i, near);
    }
}
