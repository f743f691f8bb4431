// The classes at document 01's root, the last node.
#![tactic(auto)]

ghost use Rattle.std.specs.Prelude.{◌≡◌, ◌≤◌, length};
ghost use Rattle.meaning.specs.File.Grammar.{Contents, instrument_of};
ghost use Rattle.meaning.specs.Reference.Answers.{class_names_of};
ghost use Rattle.answers.specs.Buffers.{entries, lent_after};
ghost use Rattle.instrument.specs.Described.{Describes};
ghost use Rattle.instrument.specs.Delivered.{delivered};
ghost use Rattle.partitions.specs.Classes.{MarkedInstrument, root_classes_of, state_sum};

use class_names::AllNames;
use instrument::{Delivery, Roots};
use marks::AllMarks;
use partitions::{all_classes, marked_classes, write_classes};

// The class names of component c at [c], from the marks of all components.
pub fn root_classes(t: Delivery<'_>, marks: AllMarks) -> AllNames
    requires { (k : Contents) × MarkedInstrument (delivered t) marks k }
    ensures { (k : Contents) → MarkedInstrument (delivered t.entry) marks k → result ≡ root_classes_of (instrument_of k) }
{
    let root = Roots::one(t.outline.nodecount - 1);
    marked_classes(t, marks, root)
}

// The same without the marks.
pub fn all_root_classes(t: Delivery<'_>) -> AllNames
    ensures { (k : Contents) → Describes (delivered t.entry) k → result ≡ root_classes_of (instrument_of k) }
{
    let last = Roots::one(t.outline.nodecount - 1);
    all_classes(t, last)
}

// The names written out, one byte per state, components in order.
pub fn write_root_classes(t: Delivery<'_>, out: &mut [u8])
    requires { state_sum (delivered t) ≤ length out.old }
    ensures { (k : Contents) → Describes (delivered t.entry) k → out.new ≡ lent_after (entries (class_names_of (instrument_of k))) out.old }
{
    let alone = Roots::one(t.outline.nodecount - 1);
    write_classes(t, alone, out);
}
