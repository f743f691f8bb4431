// The lines that the programs print, put behind what a text has, or a text of its own where there is one line alone. The specs of crate `answers`
// define their bytes (specs/Lines).
#![tactic(auto)]

mod pieces; // pieces.rt: each word, each line

ghost use Rattle.std.specs.Prelude.{◌≡◌, ◌<◌};
ghost use Rattle.arrayvec.specs.ArrayVec.{Extends};
ghost use Rattle.answers.specs.Outcomes.{given};
ghost use Rattle.answers.specs.Lines.{words_line, mark_lines, hexadecimal_line, lookup_line, judgement_line};
ghost use Rattle.judgement.specs.Judged.{judgement_of};
ghost use Rattle.text.specs.Texts.{Room};

use arrayvec::ArrayVec;
use judgement::Judgement;
use listing_lines::judgement_line;
use pieces::{byte_text, mark_text, word_text};
use state_words::StateSet;
use text::{Text, byte, of_word};

// Words in decimal with one space between.
pub fn words_line<const CAP: usize>(words: &[u32], out: &mut ArrayVec<u8, CAP>)
    requires { Room (words_line words.now) CAP out.old }
    ensures { Extends out.old (words_line words.now) out.new }
{
    for (i, &w) in words.iter().enumerate() {
        word_text(i, w, out);
    }
    byte(b'\n', out);
}

// A line for every two words, PASS and FAIL of a component and a node, where each component has so many nodes.
pub fn mark_lines<const CAP: usize>(nodes: usize, marks: &[StateSet], out: &mut ArrayVec<u8, CAP>)
    requires { (0 < nodes) × Room (mark_lines nodes marks.now) CAP out.old }
    ensures { Extends out.old (mark_lines nodes marks.now) out.new }
{
    for j in 0..marks.len() / 2 {
        mark_text(j / nodes, j % nodes, marks[2 * j], marks[2 * j + 1], out);
    }
}

// Each byte as two hexadecimal digits.
pub fn hexadecimal_line<const CAP: usize>(bytes: &[u8], out: &mut ArrayVec<u8, CAP>)
    requires { Room (hexadecimal_line bytes.now) CAP out.old }
    ensures { Extends out.old (hexadecimal_line bytes.now) out.new }
{
    for &b in bytes {
        byte_text(b, out);
    }
    byte(b'\n', out);
}

// The line of a lookup that is answered: "true" or "false".
pub fn truth_line(truth: bool) -> Text
    ensures { result.items ≡ lookup_line (given truth) }
{
    of_word(if truth { b"true\n" } else { b"false\n" })
}

// The line of a verdict that is given: "holds marks" and the like.
pub fn verdict_line(judgement: Judgement) -> Text
    ensures { result.items ≡ judgement_line (given (judgement_of judgement)) }
{
    let mut line = Text::new();
    judgement_line(judgement, &mut line);
    line
}
