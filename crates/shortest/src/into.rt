// The transitions that enter each state, as linked lists.
ghost use Rattle.shortest.specs.Into.{Into};

use fsbm::table::Table;

// A link for each state and for each transition of the largest machine.
pub const LINKS: usize = 4064;

// What stands where there is no link. It is a number and no Option, since Option<u16> would make the links twice as large.
const NO_LINK: u16 = 65535;

// The lists of a table. The first 64 links are the first transition into each state, the others for each transition the next one into
// the same state. What is at least the count says that there is none.
// Time: the transitions once.
pub fn into(table: &Table) -> [u16; LINKS]
    ensures { Into table.now.machine table.now.list.now result }
{
    let mut links = [NO_LINK; LINKS];
    for k in (0..table.machine.transitions).rev() {
        let q = usize::from(table.transition(k).to);
        links[64 + k] = links[q];
        links[q] = k as u16;
    }
    links
}
