// The two tables that are joined, each with what is noted of its transitions by state and letter.
ghost use Rattle.std.specs.Prelude.{◌≡◌};
ghost use Rattle.product.specs.Letters.{Noted};
ghost use Rattle.product.specs.Product.{join_fault};

use crate::letters::{KEY_SETS, KEYS};
use fsbm::table::Table;

// A table with the first transition of each key and the set of its keys.
#[derive(Clone, Copy)]
pub struct Indexed<'t, 'n> {
    pub table: &'t Table<'t>,
    pub starts: &'n [u16; KEYS],
    pub keys: &'n [u64; KEY_SETS],
    ghost noted: { Noted table.now.list.now table.now.machine.transitions starts.now keys.now },
}

// The first and the second, which can be joined.
#[derive(Clone, Copy)]
pub struct Factors<'t, 'a, 'b> {
    pub first: Indexed<'t, 'a>,
    pub second: Indexed<'t, 'b>,
    ghost fine: { join_fault first.table.now.machine first.table.now.list.now second.table.now.machine second.table.now.list.now ≡ 0 },
}
