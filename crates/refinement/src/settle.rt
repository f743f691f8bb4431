// A relation and its converse settled: rows with noted pairs are looked at until there are none (specs/Again.antt: Working).
ghost use Rattle.std.specs.Prelude.{Bool, ℕ, ◌^◌, ◌≤◌, ◌<◌, T};
ghost use Rattle.words.specs.Sets.{has};
ghost use Rattle.meaning.specs.File.Grammar.{most_states};
ghost use Rattle.instrument.specs.Table.{table_of};
ghost use Rattle.refinement.specs.Again.{Deleted, Looked, Settled, Working};

use crate::again::{failing, unrelate};
use crate::marked::Marked;
use crate::side::Side;
use classes::matching::image;
use classes::relation::{Rows, mark};
use state_words::StateSet;

// The next row to look at from x on, or else from 0 on.
fn next_row(todo: StateSet, x: usize) -> usize
    requires { (0 < todo) × (x < most_states) }
    ensures { T (has todo result) }
{
    let later = state_words::difference(todo, state_words::below(x));
    if later == 0 {
        return state_words::lowest(todo);
    }
    state_words::lowest(later)
}

impl Side {
    // Takes the pairs of x and the members of `failed` out, and notes the pairs of their predecessors, which `before` has.
    fn delete(&mut self, other: &mut Side, states: usize, before: &Rows, x: usize, failed: StateSet)
        requires { (states ≤ most_states) × (x < states) × (failed < 2 ^ states) }
        ensures { Deleted states before.now x failed self.old other.old self.new other.new }
    {
        self.rows[x] = state_words::intersection(
            self.rows[x],
            state_words::complement(failed, states),
        );
        unrelate(&mut other.rows, failed, x);
        let own = before[x];
        let others = image(before, states, failed);
        mark(&mut self.again, own, others);
        mark(&mut other.again, others, own);
        self.todo = state_words::union(own, self.todo);
        other.todo = state_words::union(others, other.todo);
    }

    // Looks at row x.
    fn look(&mut self, other: &mut Side, on: Marked<'_>, x: usize)
        requires { (x < on.table.states) × T (has self.old.todo x) }
        ensures { Looked (table_of on.entry.table) on.entry.mark self.old other.old self.new other.new }
    {
        let failed = failing(on.table, on.mark, &self.rows, self.again[x], x);
        self.again[x] = 0;
        self.todo = state_words::without(self.todo, x);
        if failed == 0 {
            return;
        }
        self.delete(other, on.table.states, on.before, x, failed);
    }

    // Looks at rows of the relation until none is to be looked at; the converse's wait.
    pub(crate) fn settle(&mut self, other: &mut Side, on: Marked<'_>)
        requires { (E : ℕ → ℕ → Bool) × (L : ℕ → ℕ → Bool) × Working (table_of on.table) on.mark E L self.old other.old }
        ensures { Settled (table_of on.entry.table) on.entry.mark self.old other.old self.new other.new }
    {
        let mut x: usize = 0;
        while self.todo != 0 {
            x = next_row(self.todo, x);
            self.look(other, on, x);
        }
    }
}
