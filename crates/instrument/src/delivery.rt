// The tables of an accepted file, as they are lent.
ghost use Rattle.meaning.specs.File.Grammar.{Contents};
ghost use Rattle.instrument.specs.Described.{Describes};
ghost use Rattle.instrument.specs.Outline.{whole};
ghost use Rattle.instrument.specs.Once.{described_once};

use crate::{Component, Outline};
use state_words::StateSet;

// The tables, the formula and the starts of an accepted file, as they are lent: an outline, and its successor sets, most of the bytes.
#[derive(Clone, Copy)]
pub struct Delivery<'a> {
    pub outline: &'a Outline,
    pub nexts: &'a [StateSet],
    pub ghost described: { (k : Contents) × Describes (whole outline.now nexts.now) k } by { described_once (whole outline.now nexts.now) },
}

impl<'a> Delivery<'a> {
    ghost use Rattle.std.specs.Prelude.{◌<◌};
    ghost use Rattle.meaning.specs.File.Promise.{component_at};
    ghost use Rattle.instrument.specs.Component.{IsComponent};
    ghost use Rattle.instrument.specs.Delivered.{delivered};

    // Component c.
    pub fn component(self, c: usize) -> Component<'a>
        requires { c < self.outline.now.components }
        ensures { (k : Contents) → Describes (delivered self.entry) k → IsComponent (component_at k c) result }
    {
        self.outline.component(self.nexts, c)
    }
}
