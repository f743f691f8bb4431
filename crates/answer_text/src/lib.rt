// The text that is printed for a question about a file (crate answers, specs/Printed): the programs read, call `answer_text` and write what it made.
#![tactic(auto)]

mod entries; // entries.rt: full and merged words, marks, classes, the listing, a component's bytes
mod values; // values.rt: the lookup, the verdict, and how to ask

ghost use Rattle.std.specs.Prelude.{◌≡◌, []};
ghost use Rattle.answers.specs.Questions.{question_of};
ghost use Rattle.answers.specs.Printed.{printed};
ghost use Rattle.arguments.specs.Asked.{asks};
ghost use Rattle.answer_text.specs.Settled.{Settled};
ghost use Rattle.answer_text.specs.Told.{Told};

use arguments::Question;
use arrayvec::ArrayVec;
use cursor::Refusal;
use text::word;

// A program reads the first bytes of a file, so many at most: they settle every longer input too (clause `longer` of `answer_text`, from the theorem
// `limit` of crate meaning).
pub const FILE_BYTES: usize = 49153;

// Room for every text: two digits for each byte that is read, and the line end. 4,096 words of at most twenty digits and a space are shorter.
pub const TEXT_BYTES: usize = 2 * FILE_BYTES + 1;

// A text, whatever is asked. A caller makes one vector and lends it for each question.
pub type Printed = ArrayVec<u8, TEXT_BYTES>;

// The text for this question in the empty vector, which is left empty where it is refused.
fn question_text(asked: Question, file: &[u8], out: &mut Printed) -> Result<(), Refusal>
    requires { out.old.items ≡ [] }
    ensures { Told result out.new.items (printed (asks asked) file.now) }
{
    match asked {
        Question::Full => entries::full(file, out),
        Question::Marks => entries::marks(file, out),
        Question::Classes => entries::classes(file, out),
        Question::Merged => entries::merged(file, out),
        Question::Listing => entries::listing(file, out),
        Question::Verdict => values::verdict(file, out),
        Question::Stretch(c) => entries::stretch(file, c, out),
        Question::Lookup(s0, s1, s2, s3) => values::lookup(file, s0, s1, s2, s3, out),
        Question::Unknown => {
            values::usage(out);
            Ok(())
        }
    }
}

// The text for the question that a line of words asks about a file: its answer, or the line of its refusal, in place of what the vector had.
pub fn answer_text(question: &[u8], file: &[u8], out: &mut Printed)
    ensures answer { out.new.items ≡ printed (question_of question.now) file.now }
    ensures longer { Settled FILE_BYTES question.now file.now out.new.items }
{
    out.clear();
    match question_text(arguments::question_of(question), file, out) {
        Ok(()) => (),
        Err(cause) => word(queries::refusal_line(cause).as_slice(), out),
    }
}
