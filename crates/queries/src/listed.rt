// The lines of the listing program as bytes in a lent buffer (document 01, Verdict and listing).
ghost use Rattle.std.specs.Prelude.{◌≡◌, List, ℕ, length};
ghost use Rattle.meaning.specs.File.Grammar.{Contents, instrument_of};
ghost use Rattle.answers.specs.Buffers.{fitting};
ghost use Rattle.instrument.specs.Described.{Describes};
ghost use Rattle.instrument.specs.Delivered.{delivered};
ghost use Rattle.partitions.specs.Classes.{root_classes_of};
ghost use Rattle.cursor.specs.Answers.{number};
ghost use Rattle.judgement.specs.Judged.{judgement_of};
ghost use Rattle.answers.specs.Outcomes.{judgement, verdict_of};
ghost use Rattle.answers.specs.Listing.{listed, listing_outcome, listing_text, refusal_line_of};
ghost use Rattle.entry_queries.specs.Written.{Answered};

use class_names::AllNames;
use cursor::Refusal;
use instrument::{Delivery, Instrument};
use judgement::Judgement;
use marks::nodes::all_marks;
use state_words::StateSet;
use text::Text;

// The lines on the instrument of an accepted file, with the names of its classes, this verdict and stage: 13 alone.
fn write_lines(
    t: Delivery<'_>,
    names: AllNames,
    judgement: Judgement,
    out: &mut [u8],
) -> Result<usize, Refusal>
    requires { (k : Contents) × Describes (delivered t) k × (names ≡ root_classes_of (instrument_of k)) }
    ensures { (k : Contents) → Describes (delivered t.entry) k → names ≡ root_classes_of (instrument_of k) → Answered (fitting (length out.old) (listing_text (instrument_of k) (judgement_of judgement))) result out.old out.new }
{
    let merged = merging::merged_count(*t.outline, names);
    let full = combination::combined_count(t);
    let text = report::listing_text(*t.outline, names, judgement, merged, full);
    let n = text.len();
    if out.len() < n {
        return Err(Refusal::Short);
    }
    report::copy_text(&text, out);
    Ok(n)
}

// The same with its own verdict, from marks and names that are asked for once: 12, then 13.
fn write_listing(t: Delivery<'_>, out: &mut [u8]) -> Result<usize, Refusal>
    ensures { (k : Contents) → Describes (delivered t.entry) k → Answered (listed (instrument_of k) (length out.old) (judgement (verdict_of (instrument_of k)))) result out.old out.new }
{
    let marks = all_marks(t);
    let names = root_classes::root_classes(t, marks);
    let judged = verdict::judge_prepared(t, marks, names);
    write_lines(t, names, judged?, out)
}

// The listing: the verdict's line, a line of class names for each component, the sizes, each ending with byte 10.
pub fn listing(file: &[u8], out: &mut [u8]) -> Result<usize, Refusal>
    ensures answer { Answered (listing_outcome file.now (length out.old)) result out.old out.new }
{
    let mut nexts: [StateSet; Instrument::ALL_NEXTS] = [0; Instrument::ALL_NEXTS];
    let outline = reader::read(file, &mut nexts)?;
    let t = Delivery {
        outline: &outline,
        nexts: &nexts,
    };
    write_listing(t, out)
}

// The line of a refusal, `refused N` and byte 10.
pub fn refusal_line(r: Refusal) -> Text
    ensures answer { result.items ≡ refusal_line_of (number r) }
{
    report::refusal_text(r.number())
}
