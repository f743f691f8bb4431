// The relation of EG and EU on one component (document 01, Classes): the largest inside the operands' relation that keeps the rule by itself.
// It and its converse are cut down together: a look at a row tests one half of the rule for the pairs that are noted there, and where pairs go
// out, the pairs of their predecessors are noted, since no other test depends on them. specs/Again.antt says what the work keeps.
#![tactic(auto)]

mod again; // again.rt: predecessors, pairs that are known, pairs that fail
mod marked; // marked.rt: what stays the same
mod settle; // settle.rt: rows looked at until none is left
mod side; // side.rt: a relation, and its pairs to look at

ghost use Rattle.std.specs.Prelude.{◌≡◌, ◌≤◌, length};
ghost use Rattle.instrument.specs.Table.{table_of};
ghost use Rattle.classes.specs.Related.{related_fixed};

use again::predecessors;
use classes::relation::{Rows, converse, rel_all};
use classes::rule::ruled;
use instrument::Table;
use mark_rules::Mark;
use marked::Marked;
use side::Side;

// The relation of EG and EU: the largest inside the operands' that keeps the rule by itself and by FAIL of the node. Rows of the relation and of
// its converse are looked at in turn until all are settled.
pub fn rel_fixed(table: Table<'_>, compared: &[u32], operands: &Rows, mark: Mark) -> Rows
    requires { table.states ≤ length compared.now }
    ensures { result ≡ related_fixed (table_of table.entry) compared.now operands.now mark }
{
    let before = predecessors(table);
    let on = Marked {
        table,
        mark,
        before: &before,
    };
    let all = rel_all(table.states);
    let rows = ruled(compared, table.states, operands, mark, &all, &all);
    let turned = converse(&rows, table.states);
    let every = state_words::below(table.states);
    let mut one = Side {
        rows,
        again: rows,
        todo: every,
    };
    let mut two = Side {
        rows: turned,
        again: turned,
        todo: every,
    };
    loop {
        one.settle(&mut two, on);
        if two.todo == 0 {
            return one.rows;
        }
        two.settle(&mut one, on);
    }
}
