// A searched table with its least weights, along which runs are traced back.
ghost use Rattle.std.specs.Prelude.{◌≡◌};
ghost use Rattle.least.specs.Turns.{Entered};
ghost use Rattle.shortest.specs.Into.{Into};

use crate::into;
use crate::into::LINKS;
use blocks::searched::Searched;
use least::turns;
use least::turns::Weights;
use stateset::StateSet;

// A searched table and its least weights, with the lists of the transitions that enter each state (into::into) and the states where storing
// can end (turns::ends).
#[derive(Drop)]
pub struct Traced<'a> {
    pub searched: &'a Searched<'a>,
    pub weights: &'a Weights,
    pub links: [u16; LINKS],
    pub middles: StateSet,
    ghost into: { Into searched.now.table.machine searched.now.table.list.now links },
    ghost turnings: { Entered searched.now.table.machine searched.now.table.list.now middles },
}

impl<'a> Traced<'a> {
    // A searched table and its least weights, ready to be traced.
    // Time: the transitions twice.
    pub fn new(searched: &'a Searched<'a>, weights: &'a Weights) -> Traced<'a>
        ensures { (result.searched ≡ searched.entry) × (result.weights ≡ weights.entry) }
    {
        let links = into::into(&searched.table);
        let middles = turns::ends(&searched.table, searched.kinds.matching);
        Traced {
            searched,
            weights,
            links,
            middles,
        }
    }
}
