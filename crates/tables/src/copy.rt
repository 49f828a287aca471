// The rows of copies: of the second half by where the copy ends and how many letters are left, of the first half by where it begins
// and how many letters are stored. A row that is None is blank.
ghost use Rattle.std.specs.Prelude.{ℕ, ◌+◌, ◌*◌, ◌≤◌, ◌<◌, ◌/◌, ◌≡◌, true, List, length, get_or};
ghost use Rattle.targets.specs.Prepared.{Row};
ghost use Rattle.layers.specs.Layers.{row_of};
ghost use Rattle.tables.specs.declared.ends.Left.TheVariants.{Kept};
ghost use Rattle.tables.specs.Halves.{SharedFrom};
ghost use Rattle.tables.specs.Tables.{row_at, PositionRows, EmptyRow, EmptyingRows, BufferingRows, ChangeLayer, Extended, EndRow, EndRows, Fruitless, Skipped, EndedRow, ChangedRow, StoredRow, StoringRow, StartingRow};
ghost use Rattle.tables.specs.Words.{for_word};

use crate::ends::{Ends, Left};
use crate::halves;
use crate::halves::HALVES;
use crate::word::Word;
use layers::layer;
use layers::row::Row;
use stateset::StateSet;

// Whether no copy of the k letters from i on goes on: they do not stand there twice, or the end is known to be blank.
fn is_fruitless(i: usize, k: usize, counts: &[u16; HALVES], ends: &Ends) -> bool
    requires { (0 < k) × (k < 128) × (i + k + k < length ends.now.left.now) }
    ensures { (w : List ℕ) → i + k + k ≤ length w → SharedFrom w i counts.now → result ≡ true → Fruitless w i ends.now.left.now k }
{
    if usize::from(counts[k]) < k {
        return true;
    }
    match ends.left[i + k + k] {
        Left::Kept(_) => false,
        Left::Blank(n) => usize::from(n) <= k,
    }
}

// The largest number of letters up to d such that a copy of so many letters from i on is not fruitless; 0 where there is none.
fn skip_fruitless(i: usize, d: usize, counts: &[u16; HALVES], ends: &Ends) -> usize
    requires { (d < 128) × (i + d + d < length ends.now.left.now) }
    ensures { (w : List ℕ) → i + d + d ≤ length w → SharedFrom w i counts.now → Skipped w i d ends.now.left.now result }
{
    for k in (1..d + 1).rev() {
        if !is_fruitless(i, k, counts, ends) {
            return k;
        }
    }
    0
}

impl Word<'_> {
    // Fills the rows 0 to d of the copies whose second half ends at e; `last` is the row at e, the buffer empty.
    pub fn emptying_rows(&self, last: Row, e: usize, d: usize, rows: &mut [Row])
        requires { (d ≤ e) × (e ≤ length self.now.letters.now) × (d < length rows.old) × for_word EmptyRow self.now e 0 last }
        ensures { for_word EmptyingRows self.now e d rows.old rows.new }
    {
        rows[0] = last;
        for r in 0..d {
            let mut row = layer::blank();
            self.moves
                .emptying_layer(u16::from(self.letters[e - (r + 1)]), &rows[r], &mut row);
            rows[r + 1] = row;
        }
    }

    // Extends the row of the copies that end at e from r letters left to d letters left. An error is the number of letters from which on
    // their rows are blank.
    fn extend(&self, e: usize, r: usize, d: usize, row: &mut Row) -> Result<(), usize>
        requires { (r ≤ d) × (d ≤ e) × (e ≤ length self.now.letters.now) × for_word EmptyRow self.now e r row.old }
        ensures { for_word Extended self.now e d result row.new }
    {
        for k in r..d {
            let mut next = layer::blank();
            if !self
                .moves
                .emptying_layer(u16::from(self.letters[e - (k + 1)]), row, &mut next)
            {
                return Err(k + 1);
            }
            *row = next;
        }
        Ok(())
    }

    // Extends the row that is kept of the end e from k letters left to d letters left, and hands it on.
    fn extended_end(&self, e: usize, k: usize, d: usize, ends: &mut Ends) -> Option<Row>
        requires { (k ≤ d) × (d ≤ e) × (e ≤ length self.now.letters.now) × (e < length ends.old.rows.now) × (e < length ends.old.left.now) × for_word EmptyRow self.now e k (row_at ends.old.rows.now e) }
        ensures { for_word EndedRow self.now e d ends.old.rows.now ends.new.rows.now ends.old.left.now ends.new.left.now result }
    {
        match self.extend(e, k, d, &mut ends.rows[e]) {
            Ok(()) => {
                ends.left[e] = Left::Kept(d as u8);
                Some(ends.rows[e])
            }
            Err(count) => {
                ends.left[e] = Left::Blank(count as u8);
                None
            }
        }
    }

    // The row of the copies that end at e with d letters left, extended on from what was kept of this end where that has no more letters.
    fn ended_row(&self, t: &[Row], e: usize, d: usize, ends: &mut Ends) -> Option<Row>
        requires { (d ≤ e) × (e ≤ length self.now.letters.now) × (length self.now.letters.now * 3 + 3 ≤ length t.now)
            × for_word PositionRows self.now t.now e × (e < length ends.old.rows.now) × (e < length ends.old.left.now) × for_word EndRow self.now e (row_at ends.old.rows.now e) (get_or ends.old.left.now e (Kept 0)) }
        ensures { for_word EndedRow self.now e d ends.old.rows.now ends.new.rows.now ends.old.left.now ends.new.left.now result }
    {
        match ends.left[e] {
            Left::Kept(k) if usize::from(k) <= d => return self.extended_end(
                e,
                usize::from(k),
                d,
                ends,
            ),
            Left::Blank(k) if usize::from(k) <= d => return None,
            _ => {}
        }
        ends.begin(e, &t[e * 3 + 2]);
        self.extended_end(e, 0, d, ends)
    }

    // The row after the change of mode at i + d, with the d letters from i on in the buffer.
    fn change_row(
        &self,
        t: &[Row],
        i: usize,
        d: usize,
        counts: &[u16; HALVES],
        ends: &mut Ends,
    ) -> Option<Row>
        requires { (0 < d) × (i + d + d ≤ length self.now.letters.now) × (length self.now.letters.now * 3 + 3 ≤ length t.now)
            × for_word PositionRows self.now t.now (i + d + d) × SharedFrom self.now.letters.now i counts.now × for_word EndRows self.now (i + 1) ends.old.rows.now ends.old.left.now }
        ensures { for_word ChangedRow self.now i d ends.new.rows.now ends.new.left.now result }
    {
        if usize::from(counts[d]) < d {
            return None;
        }
        self.ended_row(t, i + d + d, d, ends)
    }

    // The row of buffering mode where x is the first letter of the input, from the row after it is read and the row after the mode is
    // changed.
    fn stored_row(&self, x: u8, next: &Option<Row>, change: &Option<Row>) -> Option<Row>
        requires { Row self.now.moves.table.machine self.now.moves.table.list.now self.now.moves.targets.now x }
        ensures { StoredRow self.now.moves.table.machine self.now.moves.table.list.now x next.now change.now result }
    {
        if next.is_none() && change.is_none() {
            return None;
        }
        let none = layer::lent_blank();
        let next = next.as_ref().unwrap_or(none);
        let change = change.as_ref().unwrap_or(none);
        let mut row = layer::blank();
        if !self
            .moves
            .buffering_layer(u16::from(x), next, change, &mut row)
        {
            return None;
        }
        Some(row)
    }

    // The row of buffering mode at i + 1 with the letter at i in the buffer, from all copies that begin at i.
    fn storing_row(
        &self,
        t: &[Row],
        i: usize,
        counts: &[u16; HALVES],
        ends: &mut Ends,
    ) -> Option<Row>
        requires { (i < length self.now.letters.now) × (length self.now.letters.now * 3 + 3 ≤ length t.now)
            × ((p : ℕ) → i < p → p ≤ length self.now.letters.now → for_word PositionRows self.now t.now p) × SharedFrom self.now.letters.now i counts.now × for_word EndRows self.now (i + 1) ends.old.rows.now ends.old.left.now }
        ensures { for_word StoringRow self.now i ends.new.rows.now ends.new.left.now result }
    {
        let mut next = None;
        let mut d = skip_fruitless(i, (self.letters.len() - i) / 2, counts, ends);
        // No for: d falls by one, or past all copies that are fruitless.
        while 0 < d {
            let change = self.change_row(t, i, d, counts, ends);
            next = self.stored_row(self.letters[i + d], &next, &change);
            d -= 1;
            if next.is_none() {
                d = skip_fruitless(i, d, counts, ends);
            }
        }
        next
    }

    // The same where copies begin at i in the states of starts; where there are none, nothing is said of the row.
    pub fn starting_row(
        &self,
        t: &[Row],
        i: usize,
        starts: StateSet,
        counts: &[u16; HALVES],
        ends: &mut Ends,
    ) -> Option<Row>
        requires { (i < length self.now.letters.now) × (length self.now.letters.now * 3 + 3 ≤ length t.now)
            × ((p : ℕ) → i < p → p ≤ length self.now.letters.now → for_word PositionRows self.now t.now p) × SharedFrom self.now.letters.now i counts.now × for_word EndRows self.now (i + 1) ends.old.rows.now ends.old.left.now }
        ensures { for_word StartingRow self.now i starts ends.new.rows.now ends.new.left.now result }
    {
        if starts == 0 {
            return None;
        }
        self.storing_row(t, i, counts, ends)
    }

    // The row after the change of mode at i + d, with the d letters from i on in the buffer, from the rows of the positions alone.
    fn fresh_change(&self, t: &[Row], i: usize, d: usize) -> Option<Row>
        requires { (i + d + d ≤ length self.now.letters.now) × (length self.now.letters.now * 3 + 3 ≤ length t.now)
            × for_word PositionRows self.now t.now (i + d + d) }
        ensures { for_word ChangeLayer self.now i d result }
    {
        if !halves::halves_match(self.letters, i, d) {
            return None;
        }
        let e = i + d + d;
        let mut row = t[e * 3 + 2];
        match self.extend(e, 0, d, &mut row) {
            Ok(()) => Some(row),
            Err(_) => None,
        }
    }

    // Fills the rows 1, 2, .. of the copies that begin at i.
    pub fn buffering_rows(&self, t: &[Row], i: usize, stored: &mut [Row])
        requires { (i < length self.now.letters.now) × (length self.now.letters.now * 3 + 3 ≤ length t.now) × (length self.now.letters.now / 2 < length stored.old)
            × ((p : ℕ) → i < p → p ≤ length self.now.letters.now → for_word PositionRows self.now t.now p) }
        ensures { for_word BufferingRows self.now i stored.old stored.new }
    {
        let mut next = None;
        for d in (1..(self.letters.len() - i) / 2 + 1).rev() {
            let change = self.fresh_change(t, i, d);
            next = self.stored_row(self.letters[i + d], &next, &change);
            stored[d] = layer::or_blank(next);
        }
    }
}
