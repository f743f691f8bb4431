// Merged words and the lookup at document 01's root, the last node.
#![tactic(auto)]

ghost use Rattle.std.specs.Prelude.{◌≡◌, List, ℕ};
ghost use Rattle.meaning.specs.File.Grammar.{Contents, instrument_of};
ghost use Rattle.meaning.specs.Reference.Answers.{merged_words};
ghost use Rattle.answers.specs.Buffers.{entries, lent_after};
ghost use Rattle.answers.specs.Outcomes.{looked_up};
ghost use Rattle.instrument.specs.Outline.{whole};
ghost use Rattle.instrument.specs.Delivered.{delivered};
ghost use Rattle.merging.specs.Parts.{OfComponents};
ghost use Rattle.root_words.specs.LastNode.{RootPrepared, RootReady, RootRoom};

use class_names::AllNames;
use instrument::{Delivery, Instrument, Outline, Roots};
use marks::AllMarks;
use merged_words::{bit_at, write_merged};

// A word for every merged state, in the order of indices: bit k the truth of node k if that is the root or stands under it.
pub fn write_root_words(t: Delivery<'_>, marks: AllMarks, names: AllNames, out: &mut [u32])
    requires { RootRoom (delivered t) marks names out.old }
    ensures { (k : Contents) → RootPrepared (delivered t.entry) marks names k → out.new ≡ lent_after (entries (merged_words (instrument_of k))) out.old }
{
    let root = Roots::one(t.outline.nodecount - 1);
    write_merged(t, marks, names, root, out);
}

// The answer for the combined state of these states.
pub fn root_bit(
    t: Outline,
    names: AllNames,
    merged: &[u32],
    states: [usize; Instrument::MAX_COMPONENTS],
) -> bool
    requires { (nexts : List ℕ) × (k : Contents) × RootReady (whole t nexts) names merged.now k × OfComponents (whole t nexts) states }
    ensures { (nexts : List ℕ) (k : Contents) → RootReady (whole t nexts) names merged.now k → result ≡ looked_up (instrument_of k) states }
{
    let root = t.nodecount - 1;
    bit_at(t, names, root, merged, states)
}
