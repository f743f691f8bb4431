// Which states have their successors matched by those of another, for every pair at once (document 01, Classes: "on every assignment each
// non-FAIL successor of either has a related successor of the other").
ghost use Rattle.std.specs.Prelude.{◌≡◌, ◌&&◌, ◌+◌, ◌*◌, ◌^◌, ◌≤◌, ◌<◌, length};
ghost use Rattle.words.specs.Sets as sets;
ghost use Rattle.meaning.specs.File.Grammar.{most_states};
ghost use Rattle.meaning.specs.Tests.{any_below};
ghost use Rattle.meaning.specs.StepWords.{successor_word};
ghost use Rattle.instrument.specs.Table.{table_of};
ghost use Rattle.classes.specs.Rows.{rel};
ghost use Rattle.classes.specs.Matching as matched;

use crate::relation::{Rows, rows};
use instrument::Table;
use state_words::StateSet;

// The states that a member of w is related to.
pub fn image(r: &Rows, states: usize, w: StateSet) -> StateSet
    requires { (states ≤ most_states) × (w < 2 ^ states) }
    ensures { result ≡ sets.built states (λ u. any_below states (λ v. sets.has w v && rel r.now v u)) }
{
    let mut result: StateSet = 0;
    for v in state_words::members(w) {
        result = state_words::union(r[v], result);
    }
    state_words::intersection(state_words::below(states), result)
}

// Of the states in `among` those whose live successors on assignment a, those that are not FAIL, are all in m.
fn covered(table: Table<'_>, a: usize, live: StateSet, m: StateSet, among: StateSet) -> StateSet
    requires { (a < 2 ^ table.inputs) × (among < 2 ^ table.states) }
    ensures { result ≡ sets.built table.entry.states (λ y. sets.has among y
        && sets.subset (sets.intersection (successor_word table.entry.inputs table.entry.succ.now y a) live) m) }
{
    if state_words::subset(live, m) {
        return among;
    }
    state_words::filter(
        among,
        |y|
            requires { 2 ^ table.inputs * y + a < length table.succ.now }
        {
            let w = state_words::intersection(table.successors(y, a), live);
            state_words::subset(w, m)
        },
    )
}

// Of the states in `among` those of which, on every assignment, each non-FAIL successor has a successor of x that is related to it.
pub fn matched_row(
    table: Table<'_>,
    r: &Rows,
    fail: StateSet,
    x: usize,
    among: StateSet,
) -> StateSet
    requires { (x < table.states) × (among < 2 ^ table.states) }
    ensures { result ≡ sets.built table.entry.states (λ y. sets.has among y && matched.matched_by (table_of table.entry) r.now fail x y) }
{
    let live = state_words::complement(fail, table.states);
    let mut result = among;
    for a in 0..table.width() {
        if result == 0 {
            return result;
        }
        let m = image(r, table.states, table.successors(x, a));
        result = covered(table, a, live, m, result);
    }
    result
}

// The same for every state x and those that it is related to.
pub(crate) fn matched_rows(table: Table<'_>, r: &Rows, fail: StateSet) -> Rows
    ensures { result ≡ matched.matched_rows (table_of table.entry) r.now fail }
{
    let all = state_words::below(table.states);
    rows(
        table.states,
        |x|
            requires { (x < table.states) × (all < 2 ^ table.states) }
        {
            let among = state_words::intersection(all, r[x]);
            matched_row(table, r, fail, x, among)
        },
    )
}
