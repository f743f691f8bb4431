// One of two relations, each the converse of the other, that are cut down together.
use classes::relation::Rows;
use state_words::StateSet;

// A relation, the pairs of it that are noted to be looked at, and the rows that have some.
#[derive(Drop)]
pub(crate) struct Side {
    pub(crate) rows: Rows,
    pub(crate) again: Rows,
    pub(crate) todo: StateSet,
}
