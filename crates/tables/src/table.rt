// The table of rows of every position: for each the three modes, the buffer empty.
ghost use Rattle.std.specs.Prelude.{ℕ, ◌+◌, ◌*◌, ◌≤◌, ◌<◌, ◌≡◌, List, length, get_or};
ghost use Rattle.std.specs.Int.Bits.{bit_and};
ghost use Rattle.stateset.specs.Set.{In, below};
ghost use Rattle.tables.specs.Halves.{SharedFrom};
ghost use Rattle.tables.specs.Tables.{put_position, Placed, Sizes, Filling, AllRows};
ghost use Rattle.tables.specs.Words.{for_word};

use crate::ends::{Ends, Left};
use crate::halves;
use crate::halves::HALVES;
use crate::word::Word;
use layers::layer;
use layers::layer::Position;
use layers::row::Row;
use stateset::StateSet;

// Puts the rows of position p into the table.
fn put_position(t: &mut [Row], p: usize, position: &Position)
    requires { p * 3 + 3 ≤ length t.old }
    ensures { t.new ≡ put_position t.old p position.now }
{
    t[p * 3] = position.normal;
    t[p * 3 + 1] = position.buffering;
    t[p * 3 + 2] = position.emptying;
}

impl Word<'_> {
    // Puts the rows of position p into the table, and has the copies that end there begin with them, or be blank where none goes on.
    fn position_rows(&self, p: usize, position: &Position, t: &mut [Row], ends: &mut Ends)
        requires { (p * 3 + 3 ≤ length t.old) × (p < length ends.old.rows.now) × (p < length ends.old.left.now) }
        ensures { Placed self.now.moves.table.machine.states p position.now t.old t.new ends.old.rows.now ends.new.rows.now ends.old.left.now ends.new.left.now }
    {
        put_position(t, p, position);
        if !position.ends(self.moves.table.machine.states) {
            ends.left[p] = Left::Blank(0);
            return;
        }
        ends.begin(p, &position.emptying);
    }

    // The states that runs reach at position p in normal mode.
    fn near_at(&self, p: usize) -> StateSet
        requires { p ≤ 255 }
        ensures { (result ≡ bit_and (get_or self.now.sets.now p 0) (below self.now.moves.table.machine.states)) × ((q : ℕ) → In result q → q < self.now.moves.table.machine.states) }
    {
        stateset::intersection(
            self.sets[p],
            stateset::full(self.moves.table.machine.states),
        )
    }

    // Fills the rows of the end of the word.
    fn fill_end(&self, t: &mut [Row], ends: &mut Ends)
        requires { Sizes self.now.letters.now t.old ends.old.rows.now ends.old.left.now }
        ensures { (counts : List ℕ) → SharedFrom self.now.letters.now (length self.now.letters.now) counts
            → for_word Filling self.now (length self.now.letters.now) t.new ends.new.rows.now ends.new.left.now counts }
    {
        let end = self.letters.len();
        let position = self.moves.end_layer(self.near_at(end));
        self.position_rows(end, &position, t, ends);
    }

    // Fills the rows of position p from those of the positions after it.
    fn fill_position(&self, p: usize, t: &mut [Row], ends: &mut Ends, counts: &mut [u16; HALVES])
        requires { (p < length self.now.letters.now)
            × for_word Filling self.now (p + 1) t.old ends.old.rows.now ends.old.left.now counts.old }
        ensures { for_word Filling self.now p t.new ends.new.rows.now ends.new.left.now counts.new }
    {
        halves::count_shared(self.letters, p, counts);
        let near = self.near_at(p);
        if near == 0 {
            self.position_rows(p, &Position::unreached(), t, ends);
            return;
        }
        let starts = stateset::intersection(near, self.moves.buffering);
        let starting = self.starting_row(t, p, starts, counts, ends);
        let storing = layer::or_blank(starting);
        let position = self.moves.position_layer(
            near,
            false,
            u16::from(self.letters[p]),
            &t[(p + 1) * 3],
            &storing,
        );
        self.position_rows(p, &position, t, ends);
    }

    // Fills the rows of every position.
    pub fn fill(&self, t: &mut [Row], ends: &mut Ends)
        requires { Sizes self.now.letters.now t.old ends.old.rows.now ends.old.left.now }
        ensures { for_word AllRows self.now t.new }
    {
        let mut counts = [0; HALVES];
        self.fill_end(t, ends);
        for p in (0..self.letters.len()).rev() {
            self.fill_position(p, t, ends, &mut counts);
        }
    }
}
