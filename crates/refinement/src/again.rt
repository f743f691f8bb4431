// A component with the marks of a node: the predecessors of its states, the pairs that are known, and those that fail.
ghost use Rattle.std.specs.Prelude.{◌≡◌, not, ◌&&◌, ◌<◌, length};
ghost use Rattle.words.specs.Sets.{has, built, without};
ghost use Rattle.meaning.specs.File.Grammar.{most_states};
ghost use Rattle.state_words.specs.Width.{state_bits};
ghost use Rattle.instrument.specs.Table.{table_of};
ghost use Rattle.classes.specs.Rows.{rel};
ghost use Rattle.classes.specs.Changed.{Changed};
ghost use Rattle.refinement.specs.Again.{after_any, predecessor_rows, known_with, fine_b};

use classes::matching::matched_row;
use classes::relation::{Rows, converse, pick, rows};
use instrument::Table;
use mark_rules::Mark;
use state_words::StateSet;

// The successors of x on any assignment.
fn all_successors(table: Table<'_>, x: usize) -> StateSet
    requires { x < table.states }
    ensures { result ≡ after_any (table_of table.entry) x }
{
    let mut result: StateSet = 0;
    for a in 0..table.width() {
        result = state_words::union(table.successors(x, a), result);
    }
    result
}

// The predecessors of each state.
pub(crate) fn predecessors(table: Table<'_>) -> Rows
    ensures { result ≡ predecessor_rows (table_of table.entry) }
{
    let after = rows(table.states, |x| all_successors(table, x));
    converse(&after, table.states)
}

// Takes x out of the rows at some places.
pub(crate) fn unrelate(rows: &mut Rows, places: StateSet, x: usize)
    requires { (length rows.old ≡ most_states) × (x < most_states) }
    ensures { Changed (λ w. without state_bits w x) places rows.old rows.new }
{
    for y in state_words::members(places) {
        rows[y] = state_words::without(rows[y], x);
    }
}

// The states that are PASS with x, or FAIL with x.
fn known(mark: Mark, x: usize) -> StateSet
    requires { x < most_states }
    ensures { result ≡ known_with mark x }
{
    let passed = pick(state_words::member(mark.pass, x), mark.pass, 0);
    let failed = pick(state_words::member(mark.fail, x), mark.fail, 0);
    state_words::union(passed, failed)
}

// Of the pairs in row x that are noted in `again` those that are not fine.
pub(crate) fn failing(
    table: Table<'_>,
    mark: Mark,
    rows: &Rows,
    again: StateSet,
    x: usize,
) -> StateSet
    requires { x < table.states }
    ensures { result ≡ built table.entry.states (λ y. (rel rows.now x y && has again y)
        && not (fine_b (table_of table.entry) mark (rel rows.now) x y)) }
{
    let open = state_words::complement(known(mark, x), table.states);
    let among = state_words::intersection(state_words::intersection(rows[x], again), open);
    let kept = matched_row(table, rows, mark.fail, x, among);
    state_words::intersection(among, state_words::complement(kept, table.states))
}
