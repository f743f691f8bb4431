// The members of a set of states, from the lowest on.
ghost use Rattle.std.specs.Prelude.{◌≡◌};
ghost use Rattle.words.specs.Passing.{TakesLowest};
ghost use Rattle.state_words.specs.Width.{state_bits};
ghost use Rattle.std.specs.Iterator.{at_most};

use crate::StateSet;

// The members that have not come yet.
#[derive(Drop)]
pub struct MembersLeft {
    pub left: StateSet,
}

// The members of w.
pub fn members(w: StateSet) -> MembersLeft
    ensures { result.left ≡ w }
{
    MembersLeft { left: w }
}

impl Iterator for MembersLeft {
    type Item = usize;

    ghost next_gives = { λ s out t. TakesLowest state_bits s.left out t.left };

    ghost remaining = { λ s. at_most s.left };

    // The lowest of them.
    fn next(&mut self) -> Option<usize> {
        if self.left == 0 {
            return None;
        }
        let z = crate::lowest(self.left);
        self.left = crate::without_lowest(self.left);
        Some(z)
    }
}
