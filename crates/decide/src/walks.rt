// Walks: the states that a stretch of letters leads to.
ghost use Rattle.std.specs.Prelude.{ℕ, ◌≤◌, ◌≡◌, length};
ghost use Rattle.stateset.specs.Set.{In};
ghost use Rattle.fsbm.specs.declared.config.Mode.TheVariants.{Emptying};
ghost use Rattle.images.specs.Graph.{Members, From};
ghost use Rattle.images.specs.Moves.{graph_of};
ghost use Rattle.subsets.specs.Memo.{Holds, SamePlaces};
ghost use Rattle.decide.specs.Reach.{Rooms, Walk, Tailed};

use fsbm::config::Mode;
use images::Targets;
use stateset::StateSet;
use subsets::{Memo, Subset};

// The states that the letters of a word from k up to j lead to in emptying mode from the states of a set that is closed under epsilon
// moves, with epsilon moves between and after them: what walks up to k reach goes on to what they reach up to j.
fn walk_on(t: &Targets, memo: &mut Memo, word: &[u8], k: usize, j: usize, s: Subset) -> Subset
    requires { Rooms t.now.sets.now t.now.states word.now × (k ≤ j) × (j ≤ length word.now) × Holds (graph_of t.now) memo.old }
    ensures { ((i set : ℕ) → i ≤ k → Members s.set (From set (λ p q. Walk (graph_of t.now) word.now Emptying i p k q))
        → Members result.set (From set (λ p q. Walk (graph_of t.now) word.now Emptying i p j q)))
        × Holds (graph_of t.now) memo.new × SamePlaces memo.old memo.new }
{
    let mut near = s;
    for at in k..j {
        if near.set == 0 {
            return near;
        }
        near = memo.read(t, Mode::Emptying, near, word[at]);
    }
    near
}

// The matching half of copies that were followed last: from the states of ready the letters up to position lead to the states of reached.
#[derive(Clone, Copy, Debug, PartialEq, Eq)]
pub struct Tail {
    pub ready: StateSet,
    pub position: usize,
    pub reached: Subset,
}

// The states that the letters of a word from i up to j lead to in emptying mode from the matching states of s, which are ready. Where the
// last walk began in the same states it goes on from there, else the walk begins at i.
pub fn tail_to(
    t: &Targets,
    memo: &mut Memo,
    word: &[u8],
    i: usize,
    j: usize,
    s: Subset,
    ready: StateSet,
    tail: Tail,
) -> Tail
    requires { Rooms t.now.sets.now t.now.states word.now × Tailed (graph_of t.now) word.now i tail
        × (tail.position ≤ j) × (j ≤ length word.now) × Members ready (λ q. In s.set q × In t.now.matching q)
        × Holds (graph_of t.now) memo.old }
    ensures { Tailed (graph_of t.now) word.now i result × (result.ready ≡ ready) × (result.position ≡ j)
        × Holds (graph_of t.now) memo.new × SamePlaces memo.old memo.new }
{
    if tail.ready == ready {
        let on = walk_on(t, memo, word, tail.position, j, tail.reached);
        return Tail {
            ready,
            position: j,
            reached: on,
        };
    }
    let near = memo.begin(t, Mode::Emptying, s);
    let anew = walk_on(t, memo, word, i, j, near);
    Tail {
        ready,
        position: j,
        reached: anew,
    }
}
