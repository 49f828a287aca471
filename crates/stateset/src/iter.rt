// The members of a set in order.
ghost use Rattle.std.specs.Prelude.{◌≡◌};
ghost use Rattle.std.specs.Iterator.{at_most};
ghost use Rattle.std.specs.Int.Count.{ones};
ghost use Rattle.stateset.specs.Set.{GivesLowest};

use crate::StateSet;
use std::iter::FusedIterator;

// The members of a set that are left, from the lowest on.
#[derive(Clone, Debug, Drop)]
pub struct Members {
    pub(crate) rest: StateSet,
}

impl Iterator for Members {
    type Item = usize;

    ghost next_gives = { λ s p t. GivesLowest s.rest p t.rest };

    ghost remaining = { λ s. at_most (ones s.rest) };

    #[inline]
    fn next(&mut self) -> Option<usize> {
        if self.rest == 0 {
            return None;
        }
        let p = crate::lowest(self.rest);
        self.rest = crate::without_lowest(self.rest);
        Some(p as usize)
    }
}

impl FusedIterator for Members {}
