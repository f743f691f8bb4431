// What stays the same while a relation is cut down.
ghost use Rattle.std.specs.Prelude.{◌≡◌};
ghost use Rattle.instrument.specs.Table.{table_of};
ghost use Rattle.refinement.specs.Again.{predecessor_rows};

use classes::relation::Rows;
use instrument::Table;
use mark_rules::Mark;

// A component, the marks of its states for a node, and the predecessors of each state.
#[derive(Clone, Copy)]
pub(crate) struct Marked<'a> {
    pub(crate) table: Table<'a>,
    pub(crate) mark: Mark,
    pub(crate) before: &'a Rows,
    pub(crate) ghost predecessors: { before.now ≡ predecessor_rows (table_of table) },
}
