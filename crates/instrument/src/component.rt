// One component of an instrument, lent.
ghost use Rattle.instrument.specs.Lists.{Lists};

use crate::Table;

// A component's table, the output word of each state, and the signals that it drives, in ascending order, within the limits of a file.
#[derive(Clone, Copy)]
pub struct Component<'a> {
    pub table: Table<'a>,
    pub outs: &'a [u32],
    pub outputs: &'a [u32],
    pub ghost lists: { Lists table.states outputs.now outs.now },
}

impl Component<'_> {
    ghost use Rattle.std.specs.Prelude.{◌≡◌, false};
    ghost use Rattle.std.specs.Option.{MatchOption};
    ghost use Rattle.meaning.specs.Tests.{listed};
    ghost use Rattle.instrument.specs.Lists.{StandsAt};

    // The place of a signal among the outputs, if it is one of them.
    pub fn place_of(self, signal: u32) -> Option<usize>
        ensures { MatchOption result (listed self.entry.outputs.now signal ≡ false) (StandsAt self.entry.outputs.now signal) }
    {
        self.outputs.iter().position(|output| *output == signal)
    }
}
