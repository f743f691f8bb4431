// The lines of the listing, each put behind what a text has (document 01, Verdict and listing). The specs of crate `answers` define their bytes.
#![tactic(auto)]

ghost use Rattle.std.specs.Prelude.{◌++◌, ℕ, ◌≤◌, ◌<◌, get_or};
ghost use Rattle.meaning.specs.File.Grammar.{limits, most_states};
ghost use Rattle.arrayvec.specs.ArrayVec.{Extends};
ghost use Rattle.answers.specs.Listing.{decimal, space, verdict_line, class_line, size_line, refusal_line_of};
ghost use Rattle.answers.specs.Outcomes.{given};
ghost use Rattle.answers.specs.Lines.{judgement_line};
ghost use Rattle.judgement.specs.Judged.{judgement_of};
ghost use Rattle.text.specs.Texts.{Room};
ghost use Rattle.listing_lines.specs.Lines.{names_text, named_line, class_lines};

use arrayvec::ArrayVec;
use instrument::Instrument;
use judgement::Judgement;
use text::{byte, decimal, word};

// "fails marks".
pub fn judgement_line<const CAP: usize>(judgement: Judgement, out: &mut ArrayVec<u8, CAP>)
    requires { Room (judgement_line (given (judgement_of judgement))) CAP out.old }
    ensures { Extends out.old (judgement_line (given (judgement_of judgement))) out.new }
{
    word(judgement.verdict_word(), out);
    byte(b' ', out);
    word(judgement.stage.word(), out);
    byte(b'\n', out);
}

// "verdict fails marks".
pub fn verdict_line<const CAP: usize>(judgement: Judgement, out: &mut ArrayVec<u8, CAP>)
    requires { Room (verdict_line (judgement_of judgement)) CAP out.old }
    ensures { Extends out.old (verdict_line (judgement_of judgement)) out.new }
{
    word(b"verdict ", out);
    judgement_line(judgement, out);
}

// A class name after a space.
fn spaced_name<const CAP: usize>(name: u8, out: &mut ArrayVec<u8, CAP>)
    requires { Room (space ++ decimal name) CAP out.old }
    ensures { Extends out.old (space ++ decimal name) out.new }
{
    byte(b' ', out);
    decimal(name as u64, out);
}

// The class names of a component's states.
fn spaced_names<const CAP: usize>(names: &[u8], out: &mut ArrayVec<u8, CAP>)
    requires { Room (names_text names.now) CAP out.old }
    ensures { Extends out.old (names_text names.now) out.new }
{
    for &name in names {
        spaced_name(name, out);
    }
}

// A number between two words.
fn numbered<const CAP: usize>(label: &[u8], v: u32, end: &[u8], out: &mut ArrayVec<u8, CAP>)
    requires { Room (label.now ++ (decimal v ++ end.now)) CAP out.old }
    ensures { Extends out.old (label.now ++ (decimal v ++ end.now)) out.new }
{
    word(label, out);
    decimal(v as u64, out);
    word(end, out);
}

// "component 0 classes 0 0 2".
pub fn class_line<const CAP: usize>(c: u32, names: &[u8], out: &mut ArrayVec<u8, CAP>)
    requires { Room (named_line c names.now) CAP out.old }
    ensures { Extends out.old (named_line c names.now) out.new }
{
    numbered(b"component ", c, b" classes", out);
    spaced_names(names, out);
    byte(b'\n', out);
}

// The line of component c with so many states and these names.
fn component_line<const CAP: usize>(
    c: usize,
    states: u32,
    names: [u8; Instrument::MAX_STATES],
    out: &mut ArrayVec<u8, CAP>,
)
    requires { (c < limits.components) × (states ≤ most_states) × (Room (class_line c states (λ x. get_or names x 0)) CAP out.old) }
    ensures { Extends out.old (class_line c states (λ x. get_or names x 0)) out.new }
{
    class_line(c as u32, &names[..states as usize], out);
}

// The class lines of so many components, from their state counts and their rows of names.
pub fn class_lines<const CAP: usize>(
    components: usize,
    states: [u32; Instrument::MAX_COMPONENTS],
    names: [[u8; Instrument::MAX_STATES]; Instrument::MAX_COMPONENTS],
    out: &mut ArrayVec<u8, CAP>,
)
    requires components_le_components { (components ≤ limits.components) × ((i : ℕ) → i < components → get_or states i 0 ≤ most_states) }
    requires room { Room (class_lines components states names) CAP out.old }
    ensures { Extends out.old (class_lines components states names) out.new }
{
    for c in 0..components {
        component_line(c, states[c], names[c], out);
    }
}

// "merged 2 of 3".
pub fn size_line<const CAP: usize>(merged: u32, full: u32, out: &mut ArrayVec<u8, CAP>)
    requires { Room (size_line merged full) CAP out.old }
    ensures { Extends out.old (size_line merged full) out.new }
{
    numbered(b"merged ", merged, b" of ", out);
    decimal(full as u64, out);
    byte(b'\n', out);
}

// "refused 1".
pub fn refusal_line<const CAP: usize>(number: u32, out: &mut ArrayVec<u8, CAP>)
    requires { Room (refusal_line_of number) CAP out.old }
    ensures { Extends out.old (refusal_line_of number) out.new }
{
    numbered(b"refused ", number, b"\n", out);
}
