// A table of where the transitions of a machine lead, with the kinds of its states: what every function on its sets is told of.
ghost use Rattle.std.specs.Prelude.{ℕ, ◌^◌, ◌<◌, ◌≤◌, get_or};
ghost use Rattle.stateset.specs.Set.{width, In};
ghost use Rattle.images.specs.Graph.{set_of, Room, Closed};

use fsbm::config::Mode;
use stateset::StateSet;

// A machine's table of targets, its number of states, the buffering states and the matching states. The first set of the table has the
// states with epsilon transitions, its second the states whose closures it has; behind them stand the row of closures and the rows of
// the letters in order, letter 0, epsilon, first, each with one set for each state.
#[derive(Clone, Copy)]
pub struct Targets<'a> {
    pub sets: &'a [StateSet],
    pub states: usize,
    pub buffering: StateSet,
    pub matching: StateSet,
    // What the types of the fields say, for proofs.
    ghost fits: { (i : ℕ) → get_or sets.now i 0 < 2 ^ width },
    ghost kinds_fit: { (buffering < 2 ^ width) × (matching < 2 ^ width) },
    // The table has room for the row of letter 0, each state with an epsilon transition is in its first set, and the closure of each state
    // of its second set is there.
    ghost few: { states ≤ width },
    ghost row: { Room sets.now states 0 },
    ghost epsilons: { (p q : ℕ) → p < states → In (get_or sets.now (set_of states 0 p) 0) q → In (get_or sets.now 0 0) p },
    ghost closed: { (p : ℕ) → In (get_or sets.now 1 0) p → ∥ Closed sets.now states buffering matching p ∥₁ },
}

impl<'a> Targets<'a> {
    ghost use Rattle.std.specs.Prelude.{◌+◌, ◌*◌, ◌≤◌, ◌<◌, ◌≡◌, length, get_or};
    ghost use Rattle.stateset.specs.Set.{In};
    ghost use Rattle.images.specs.Graph.{Members, From, Star, graph, Edge, Free, Advance, EmptyCopy, Turn, Room, Good};
    ghost use Rattle.images.specs.Moves.{graph_of, Open};

    // A table with what its functions are told of the machine.
    pub fn new(
        sets: &'a [StateSet],
        states: usize,
        buffering: StateSet,
        matching: StateSet,
    ) -> Targets<'a>
        requires { Good sets.now states buffering matching }
        ensures { graph_of result ≡ graph sets.now states buffering matching }
    {
        Targets {
            sets,
            states,
            buffering,
            matching,
        }
    }

    // Where the row of the letter x begins in the table.
    fn row_of(&self, x: u8) -> usize
        ensures { result ≡ 2 + self.now.states + x * self.now.states }
    {
        2 + self.states + usize::from(x) * self.states
    }

    // The union of what a row of the table has for the states of a set.
    fn row_union(&self, row: usize, set: StateSet) -> StateSet
        requires { row + self.now.states ≤ length self.now.sets.now }
        ensures { Members result (From «set» (λ p q. (p < self.now.states) × In (get_or self.now.sets.now (row + p) 0) q)) }
    {
        let mut all = stateset::empty();
        let from = stateset::intersection(set, stateset::full(self.states));
        for p in stateset::members(from) {
            all = stateset::union(all, self.sets[row + p]);
        }
        all
    }

    // The image of a set under the transitions of the letter whose row begins there, but for those between two matching states.
    fn open_union(&self, row: usize, set: StateSet) -> StateSet
        requires { row + self.now.states ≤ length self.now.sets.now }
        ensures { Members result (From «set» (Open (graph_of self.now) row)) }
    {
        let plain = self.row_union(row, stateset::difference(set, self.matching));
        let matching = self.row_union(row, stateset::intersection(set, self.matching));
        stateset::union(plain, stateset::difference(matching, self.matching))
    }

    // The image of a set under the moves that read x in a mode: a normal move does not leave a buffering state, a buffering move does not
    // lead to one, and neither is between two matching states; an emptying move is. Time: the members of the set, each once. It is always
    // inlined: what asks for a step has its mode and its table at hand, and the loop over the members is short.
    #[inline(always)]
    fn step_set(&self, mode: Mode, set: StateSet, x: u8) -> StateSet
        requires { Room self.now.sets.now self.now.states x }
        ensures { Members result (From «set» (Edge (graph_of self.now) mode x)) }
    {
        let row = self.row_of(x);
        match mode {
            Mode::Normal => self.open_union(row, stateset::difference(set, self.buffering)),
            Mode::Buffering => stateset::difference(self.open_union(row, set), self.buffering),
            Mode::Emptying => {
                let found = self.row_union(row, stateset::intersection(set, self.matching));
                stateset::intersection(found, self.matching)
            }
        }
    }

    // The states that have epsilon transitions; it may have others too.
    fn epsilons(&self) -> StateSet
        ensures { result ≡ get_or self.now.sets.now 0 0 }
    {
        self.sets[0]
    }

    // The states whose closures the table has.
    fn closed(&self) -> StateSet
        ensures { result ≡ get_or self.now.sets.now 1 0 }
    {
        self.sets[1]
    }

    // The states that a set reaches by epsilon moves in a mode. Only states that have epsilon transitions are looked up.
    pub fn close_set(&self, mode: Mode, set: StateSet) -> StateSet
        ensures { Members result (From «set» (Free (graph_of self.now) mode)) }
    {
        let may = self.epsilons();
        let mut all = set;
        let mut new = set;
        // A `loop`: it ends where a round adds nothing.
        loop {
            let from = stateset::intersection(new, may);
            if from == 0 {
                return all;
            }
            new = stateset::difference(self.step_set(mode, from, 0), all);
            if new == 0 {
                return all;
            }
            all = stateset::union(all, new);
        }
    }

    // The image of a set under the moves that read the letter x of a word in a mode; no move reads letter 0.
    pub fn read_set(&self, mode: Mode, set: StateSet, x: u8) -> StateSet
        requires { Room self.now.sets.now self.now.states x }
        ensures { Members result (λ q. (0 < x) × From «set» (Edge (graph_of self.now) mode x) q) }
    {
        if x == 0 {
            return 0;
        }
        self.step_set(mode, set, x)
    }

    // The states that a set reaches by a move that reads the letter x of a word and epsilon moves after it.
    pub fn advance(&self, mode: Mode, set: StateSet, x: u8) -> StateSet
        requires { Room self.now.sets.now self.now.states x }
        ensures { Members result (From «set» (Advance (graph_of self.now) mode x)) }
    {
        let read = self.read_set(mode, set, x);
        if read == 0 {
            return 0;
        }
        self.close_set(mode, read)
    }

    // The states that a set reaches by one copy of nothing.
    fn empty_copies(&self, set: StateSet) -> StateSet
        ensures { Members result (From «set» (EmptyCopy (graph_of self.now))) }
    {
        let begun = stateset::intersection(set, self.buffering);
        if begun == 0 {
            return 0;
        }
        let stored = self.close_set(Mode::Buffering, begun);
        self.close_set(
            Mode::Emptying,
            stateset::intersection(stored, self.matching),
        )
    }

    // The states that a set reaches at one position in normal mode, found in turns: copies of nothing from the states that came last, and
    // then epsilon moves from those that are new.
    fn close_in_turns(&self, set: StateSet) -> StateSet
        ensures { Members result (From «set» (Star (Turn (graph_of self.now)))) }
    {
        let mut all = self.close_set(Mode::Normal, set);
        let mut new = all;
        // A `loop`, as in close_set.
        loop {
            let copied = self.empty_copies(new);
            let fresh = stateset::difference(copied, all);
            if fresh == 0 {
                return all;
            }
            new = self.close_set(Mode::Normal, fresh);
            all = stateset::union(all, new);
        }
    }

    // The states that a set reaches at one position in normal mode: by epsilon moves and copies of nothing, as often as wanted.
    // Time: the members of the set, each once, where the table has the closures of all of them; else some turns of epsilon moves and
    // copies.
    pub fn close_position(&self, set: StateSet) -> StateSet
        ensures { Members result (From «set» (Star (Turn (graph_of self.now)))) }
    {
        if set == 0 {
            return 0;
        }
        let other = stateset::difference(set, self.closed());
        if other == 0 {
            return self.row_union(2, set);
        }
        self.close_in_turns(set)
    }
}
