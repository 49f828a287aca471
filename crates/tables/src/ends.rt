// What is kept of the copies that end at each position of a word.
ghost use Rattle.std.specs.Prelude.{◌<◌, ◌≡◌, length, set};
ghost use Rattle.tables.specs.declared.ends.Left.TheVariants.{Kept};

use layers::row::Row;

// Of the copies that end at one position: their row with so many letters left is kept, or their rows are blank from so many letters on.
#[derive(Clone, Copy, Debug, PartialEq, Eq)]
pub enum Left {
    Kept(u8),
    Blank(u8),
}

// For each position what is kept of the copies that end there, and their row where one is kept. They are two tables, since what is left is
// asked of far more ends than a row is read of.
#[derive(Debug, Drop)]
pub struct Ends<'a> {
    pub rows: &'a mut [Row],
    pub left: &'a mut [Left],
}

impl Ends<'_> {
    // The copies that end at e begin with this row, no letter left.
    #[inline]
    pub fn begin(&mut self, e: usize, row: &Row)
        requires { (e < length self.old.rows.now) × (e < length self.old.left.now) }
        ensures { (self.new.rows.now ≡ set self.old.rows.now e row.now) × (self.new.left.now ≡ set self.old.left.now e (Kept 0)) }
    {
        self.rows[e] = *row;
        self.left[e] = Left::Kept(0);
    }
}
