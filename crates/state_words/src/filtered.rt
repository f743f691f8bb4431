// The members of a set of states that pass a test.
ghost use Rattle.std.specs.Prelude.{T, ℕ};
ghost use Rattle.words.specs.Sets.{has};
ghost use Rattle.words.specs.Passing.{Filtered};

use crate::StateSet;
use crate::passing::members;

// Of the members of w those that pass the test.
pub fn filter<F: Fn(usize) -> bool>(w: StateSet, test: F) -> StateSet
    requires { (y : ℕ) → T (has w y) → F.pre test y }
    ensures { Filtered (λ y b. F.post test y b) w result }
{
    let mut result = w;
    for y in members(w) {
        if !test(y) {
            result = crate::without(result, y);
        }
    }
    result
}
