// A table that is searched, with all that the search looks up in it.
ghost use Rattle.std.specs.Prelude.{◌≡◌};
ghost use Rattle.fsbm.specs.Machine.{buffering};
ghost use Rattle.images.specs.Graph.{KindsOf};
ghost use Rattle.blocks.specs.Readers.{Readers};
ghost use Rattle.blocks.specs.Works.{Kind, Ready};

use crate::sizes::{MOST_KEYS, MOST_READERS};
use crate::{index, readers};
use fsbm::table::Table;
use images::Kinds;

// A table with the index of its list (index::index), its sets of states, and for each letter the matching states that can read it
// (readers::readers).
#[derive(Drop)]
pub struct Searched<'a> {
    pub table: Table<'a>,
    pub index: &'a [u16; MOST_KEYS],
    pub kinds: Kinds,
    pub readers: [u64; MOST_READERS],
    ghost sorted: { KindsOf table.machine.marks table.machine.states kinds },
    ghost ready: { Ready table.machine table.list.now index.now kinds.matching },
    ghost buffers: { Kind (buffering table.machine.marks) kinds.buffering },
    ghost reads: { Readers table.machine table.list.now readers },
}

impl<'a> Searched<'a> {
    // A table with its sets of states, ready to be searched; room gets the index.
    // Time: that of the index and of the readers.
    pub fn new(table: &Table<'a>, kinds: Kinds, room: &'a mut [u16; MOST_KEYS]) -> Searched<'a>
        requires { KindsOf table.now.machine.marks table.now.machine.states kinds }
        ensures { (result.table ≡ table.now) × (result.kinds ≡ kinds) }
    {
        index::index(table, room);
        let readers = readers::readers(table, kinds.matching);
        Searched {
            table: *table,
            index: room,
            kinds,
            readers,
        }
    }
}
