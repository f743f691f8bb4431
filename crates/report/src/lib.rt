// The text of the listing program, and its copy into a lent buffer (document 01, Verdict and listing).
#![tactic(auto)]

ghost use Rattle.std.specs.Prelude.{◌≡◌, List, ℕ, ◌≤◌, length};
ghost use Rattle.arrayvec.specs.ArrayVec.{array_vec_len};
ghost use Rattle.meaning.specs.File.Grammar.{Contents, instrument_of};
ghost use Rattle.answers.specs.Buffers.{entries, lent_after};
ghost use Rattle.instrument.specs.Described.{Describes};
ghost use Rattle.instrument.specs.Outline.{whole};
ghost use Rattle.partitions.specs.Classes.{root_classes_of};
ghost use Rattle.answers.specs.Listing.{class_lines, listing_text, refusal_line_of};
ghost use Rattle.judgement.specs.Judged.{judgement_of};
ghost use Rattle.report.specs.Report.{Listed};

use class_names::AllNames;
use instrument::Outline;
use judgement::Judgement;
use listing_lines::{class_lines, refusal_line, size_line, verdict_line};
use text::Text;

// All lines: the verdict with its stage, the class names of every component, and both sizes.
pub fn listing_text(
    t: Outline,
    names: AllNames,
    judgement: Judgement,
    merged: usize,
    full: usize,
) -> Text
    requires { (nexts : List ℕ) × (k : Contents) × Listed (whole t nexts) names merged full k }
    ensures { (nexts : List ℕ) (k : Contents) → Listed (whole t nexts) names merged full k → result.items ≡ listing_text (instrument_of k) (judgement_of judgement) }
{
    let mut text = Text::new();
    verdict_line(judgement, &mut text);
    let states = t.states;
    class_lines(t.components as usize, states, names, &mut text);
    size_line(merged as u32, full as u32, &mut text);
    text
}

// The class names of every component alone.
pub fn class_text(t: Outline, names: AllNames) -> Text
    requires { (nexts : List ℕ) × (k : Contents) × Describes (whole t nexts) k × (names ≡ root_classes_of (instrument_of k)) }
    ensures { (nexts : List ℕ) (k : Contents) → Describes (whole t nexts) k → names ≡ root_classes_of (instrument_of k) → result.items ≡ class_lines (instrument_of k) }
{
    let mut lines = Text::new();
    let states = t.states;
    class_lines(t.components as usize, states, names, &mut lines);
    lines
}

// The one line of a refusal.
pub fn refusal_text(number: u32) -> Text
    ensures { result.items ≡ refusal_line_of number }
{
    let mut line = Text::new();
    refusal_line(number, &mut line);
    line
}

// The bytes of a text copied to the front of a buffer.
pub fn copy_text(text: &Text, out: &mut [u8])
    requires { array_vec_len text.now ≤ length out.old }
    ensures { out.new ≡ lent_after (entries text.now.items) out.old }
{
    out[..text.len()].copy_from_slice(text.as_slice());
}
