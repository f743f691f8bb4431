// The rule of EX, EG and EU for every pair of states at once, and the relation of EX (document 01, Classes).
ghost use Rattle.std.specs.Prelude.{◌≡◌, ◌&&◌, ◌||◌, ◌^◌, ◌≤◌, ◌<◌, length, get_or, eqb};
ghost use Rattle.words.specs.Sets.{has, built};
ghost use Rattle.meaning.specs.File.Grammar.{most_states};
ghost use Rattle.instrument.specs.Table.{table_of};
ghost use Rattle.classes.specs.Related.{related_ex};
ghost use Rattle.classes.specs.Matching.{kept, ruled};

use crate::matching::matched_rows;
use crate::relation::{Rows, converse, pick, rel_both, rows};
use instrument::Table;
use mark_rules::Mark;
use state_words::StateSet;

// Of the states in `among` those with the same compared outputs as x.
fn same_outputs(compared: &[u32], states: usize, x: usize, among: StateSet) -> StateSet
    requires { (states ≤ length compared.now) × (x < states) × (among < 2 ^ states) }
    ensures { result ≡ built states (λ y. has among y && eqb (get_or compared.now x 0) (get_or compared.now y 0)) }
{
    let own = compared[x];
    state_words::filter(
        among,
        |y|
            requires { y < length compared.now }
        { own == compared[y] },
    )
}

// Of the states in own those that are PASS with x, FAIL with x, or alike.
fn kept(states: usize, own: StateSet, mark: Mark, alike: StateSet, x: usize) -> StateSet
    requires { (states ≤ most_states) × (x < states) }
    ensures { result ≡ kept states own mark alike x }
{
    let failed = pick(state_words::member(mark.fail, x), mark.fail, 0);
    let passed = pick(state_words::member(mark.pass, x), mark.pass, 0);
    let ruled = state_words::union(passed, state_words::union(failed, alike));
    state_words::intersection(
        state_words::below(states),
        state_words::intersection(own, ruled),
    )
}

// The rule for the states that x is related to, where `matched` are those whose successors are matched by those of x, and match them.
fn ruled_row(
    compared: &[u32],
    states: usize,
    related: StateSet,
    mark: Mark,
    matched: StateSet,
    x: usize,
) -> StateSet
    requires { (states ≤ most_states) × (states ≤ length compared.now) × (x < states) }
    ensures { result ≡ built states (λ y. has related y && ((has mark.pass x && has mark.pass y) || ((has mark.fail x && has mark.fail y)
        || (eqb (get_or compared.now x 0) (get_or compared.now y 0) && has matched y)))) }
{
    let own = state_words::intersection(state_words::below(states), related);
    let among = state_words::intersection(own, matched);
    let alike = same_outputs(compared, states, x, among);
    kept(states, own, mark, alike, x)
}

// The rule for every pair of r, where forth and back say which successors are matched.
pub fn ruled(
    compared: &[u32],
    states: usize,
    r: &Rows,
    mark: Mark,
    forth: &Rows,
    back: &Rows,
) -> Rows
    requires { (states ≤ most_states) × (states ≤ length compared.now) }
    ensures { result ≡ ruled states compared.now r.now mark forth.now back.now }
{
    let matched = rel_both(forth, back, states);
    rows(
        states,
        |x|
            requires { (states ≤ most_states) × (states ≤ length compared.now) × (x < states) }
        { ruled_row(compared, states, r[x], mark, matched[x], x) },
    )
}

// The relation of EX: the rule by the operand's relation and FAIL.
pub fn rel_ex(
    table: Table<'_>,
    compared: &[u32],
    operand: &Rows,
    mark: Mark,
    operand_fail: StateSet,
) -> Rows
    requires { table.states ≤ length compared.now }
    ensures { result ≡ related_ex (table_of table.entry) compared.now operand.now mark operand_fail }
{
    let back = matched_rows(table, operand, operand_fail);
    let opposite = converse(operand, table.states);
    let columns = matched_rows(table, &opposite, operand_fail);
    let forth = converse(&columns, table.states);
    ruled(compared, table.states, operand, mark, &forth, &back)
}
