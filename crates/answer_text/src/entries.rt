// The lines of entries in a lent vector, of an instrument, and of a component's bytes.
ghost use Rattle.std.specs.Prelude.{◌≡◌, [], length};
ghost use Rattle.meaning.specs.File.Grammar.{Contents, instrument_of};
ghost use Rattle.meaning.specs.Reference.Answers.{mark_words_of};
ghost use Rattle.instrument.specs.Described.{Describes};
ghost use Rattle.instrument.specs.Delivered.{delivered};
ghost use Rattle.answers.specs.Lines.{mark_lines};
ghost use Rattle.answers.specs.Listing.{class_lines};
ghost use Rattle.answers.specs.Questions as asked;
ghost use Rattle.answers.specs.Printed.{printed};
ghost use Rattle.answer_text.specs.Told.{Told};

use crate::Printed;
use cursor::Refusal;
use instrument::{Delivery, Instrument};
use state_words::StateSet;
use text::word;

// The full words.
pub(crate) fn full(file: &[u8], out: &mut Printed) -> Result<(), Refusal>
    requires { out.old.items ≡ [] }
    ensures { Told result out.new.items (printed asked.full file.now) }
{
    let mut words = [0u32; 4096];
    let n = queries::full_words(file, &mut words)?;
    lines::words_line(&words[..n], out);
    Ok(())
}

// The merged words.
pub(crate) fn merged(file: &[u8], out: &mut Printed) -> Result<(), Refusal>
    requires { out.old.items ≡ [] }
    ensures { Told result out.new.items (printed asked.merged file.now) }
{
    let mut words = [0u32; 4096];
    let n = queries::merged_words(file, &mut words)?;
    lines::words_line(&words[..n], out);
    Ok(())
}

// Two words for each component and node that there may be.
const MARK_WORDS: usize = 2 * Instrument::MAX_COMPONENTS * Instrument::MAX_NODES;

// The marks of an instrument.
fn instrument_marks(t: Delivery<'_>, out: &mut Printed)
    requires { out.old.items ≡ [] }
    ensures { (k : Contents) → Describes (delivered t.entry) k → out.new.items ≡ mark_lines (length k.nodes) (mark_words_of (instrument_of k)) }
{
    let nodes = t.outline.nodecount as usize;
    let n = 2 * t.outline.components as usize * nodes;
    let mut words = [0; MARK_WORDS];
    marks::nodes::write_marks(t, &mut words);
    lines::mark_lines(nodes, &words[..n], out);
}

// The marks.
pub(crate) fn marks(file: &[u8], out: &mut Printed) -> Result<(), Refusal>
    requires { out.old.items ≡ [] }
    ensures { Told result out.new.items (printed asked.marks file.now) }
{
    let mut nexts: [StateSet; Instrument::ALL_NEXTS] = [0; Instrument::ALL_NEXTS];
    let outline = reader::read(file, &mut nexts)?;
    let t = Delivery {
        outline: &outline,
        nexts: &nexts,
    };
    instrument_marks(t, out);
    Ok(())
}

// The class names of an instrument.
fn instrument_classes(t: Delivery<'_>, out: &mut Printed)
    requires { out.old.items ≡ [] }
    ensures { (k : Contents) → Describes (delivered t.entry) k → out.new.items ≡ class_lines (instrument_of k) }
{
    let names = root_classes::all_root_classes(t);
    word(report::class_text(*t.outline, names).as_slice(), out);
}

// The class names.
pub(crate) fn classes(file: &[u8], out: &mut Printed) -> Result<(), Refusal>
    requires { out.old.items ≡ [] }
    ensures { Told result out.new.items (printed asked.classes file.now) }
{
    let mut nexts: [StateSet; Instrument::ALL_NEXTS] = [0; Instrument::ALL_NEXTS];
    let outline = reader::read(file, &mut nexts)?;
    let t = Delivery {
        outline: &outline,
        nexts: &nexts,
    };
    instrument_classes(t, out);
    Ok(())
}

// The listing.
pub(crate) fn listing(file: &[u8], out: &mut Printed) -> Result<(), Refusal>
    requires { out.old.items ≡ [] }
    ensures { Told result out.new.items (printed asked.listing file.now) }
{
    let mut bytes = [0u8; 2048];
    let n = queries::listing(file, &mut bytes)?;
    word(&bytes[..n], out);
    Ok(())
}

// A component's bytes.
pub(crate) fn stretch(file: &[u8], c: u32, out: &mut Printed) -> Result<(), Refusal>
    requires { out.old.items ≡ [] }
    ensures { Told result out.new.items (printed (asked.stretch c) file.now) }
{
    queries::component_refusal(file, c)?;
    lines::hexadecimal_line(queries::component_bytes(file, c), out);
    Ok(())
}
