// Questions whose answers are entries in a lent buffer: full words, marks, class names, merged words.
#![tactic(auto)]

ghost use Rattle.std.specs.Prelude.{◌≡◌, length};
ghost use Rattle.meaning.specs.File.Grammar.{Contents, instrument_of};
ghost use Rattle.meaning.specs.Reference.Answers.{class_names_of, full_count, full_words, mark_words_of, merged_size, merged_words};
ghost use Rattle.answers.specs.Buffers.{fitting};
ghost use Rattle.instrument.specs.Described.{Describes};
ghost use Rattle.instrument.specs.Delivered.{delivered};
ghost use Rattle.answers.specs.Outcomes.{within, class_outcome, full_outcome, mark_outcome, merged_outcome};
ghost use Rattle.answers.specs.Means.{Holds, ClassesMean, FullMeans, MarksMean, MergedMeans};
ghost use Rattle.entry_queries.specs.Written.{written_number, Answered};

use cursor::Refusal;
use instrument::{Delivery, Instrument};
use state_words::StateSet;

// Each question answers how many entries were written at the front of the lent buffer, or why none was and the buffer is as it was.

// The full way on the instrument of an accepted file: 11, then 13.
fn write_full(t: Delivery<'_>, out: &mut [u32]) -> Result<usize, Refusal>
    ensures { (k : Contents) → Describes (delivered t.entry) k → Answered (within (full_count (instrument_of k)) 11 (fitting (length out.old) (full_words (instrument_of k)))) result out.old out.new }
{
    let states = combination::combined_count(t);
    if 4096 < states {
        return Err(Refusal::FullSize);
    }
    if out.len() < states {
        return Err(Refusal::Short);
    }
    truth::write_truth(
        t,
        [[0; Instrument::MAX_NODES]; Instrument::MAX_COMPONENTS],
        out,
    );
    Ok(states)
}

// The full way: a word per combined state, bit k the truth of node k.
pub fn full_words(file: &[u8], out: &mut [u32]) -> Result<usize, Refusal>
    ensures answer { Answered (full_outcome file.now (length out.old)) result out.old out.new }
    ensures meaning { written_number result ≡ 0 → Holds (FullMeans out.new) file.now }
{
    let mut nexts: [StateSet; Instrument::ALL_NEXTS] = [0; Instrument::ALL_NEXTS];
    let outline = reader::read(file, &mut nexts)?;
    let t = Delivery {
        outline: &outline,
        nexts: &nexts,
    };
    write_full(t, out)
}

// The marks on the instrument of an accepted file: 13 alone.
fn write_marked(t: Delivery<'_>, out: &mut [StateSet]) -> Result<usize, Refusal>
    ensures { (k : Contents) → Describes (delivered t.entry) k → Answered (fitting (length out.old) (mark_words_of (instrument_of k))) result out.old out.new }
{
    let marked = 2 * t.outline.components as usize * t.outline.nodecount as usize;
    if out.len() < marked {
        return Err(Refusal::Short);
    }
    marks::nodes::write_marks(t, out);
    Ok(marked)
}

// Marks: two words for every component and node, PASS then FAIL, components outermost.
pub fn mark_words(file: &[u8], out: &mut [StateSet]) -> Result<usize, Refusal>
    ensures answer { Answered (mark_outcome file.now (length out.old)) result out.old out.new }
    ensures meaning { written_number result ≡ 0 → Holds (MarksMean out.new) file.now }
{
    let mut nexts: [StateSet; Instrument::ALL_NEXTS] = [0; Instrument::ALL_NEXTS];
    let outline = reader::read(file, &mut nexts)?;
    let t = Delivery {
        outline: &outline,
        nexts: &nexts,
    };
    write_marked(t, out)
}

// The class names on the instrument of an accepted file: 13 alone.
fn write_named(t: Delivery<'_>, out: &mut [u8]) -> Result<usize, Refusal>
    ensures { (k : Contents) → Describes (delivered t.entry) k → Answered (fitting (length out.old) (class_names_of (instrument_of k))) result out.old out.new }
{
    let named = partitions::state_sum(t);
    if out.len() < named {
        return Err(Refusal::Short);
    }
    root_classes::write_root_classes(t, out);
    Ok(named)
}

// Classes: the name of every state's class, one byte per state, components in order.
pub fn class_names(file: &[u8], out: &mut [u8]) -> Result<usize, Refusal>
    ensures answer { Answered (class_outcome file.now (length out.old)) result out.old out.new }
    ensures meaning { written_number result ≡ 0 → Holds (ClassesMean out.new) file.now }
{
    let mut nexts: [StateSet; Instrument::ALL_NEXTS] = [0; Instrument::ALL_NEXTS];
    let outline = reader::read(file, &mut nexts)?;
    let t = Delivery {
        outline: &outline,
        nexts: &nexts,
    };
    write_named(t, out)
}

// The merged words on the instrument of an accepted file: 12, then 13.
fn write_short(t: Delivery<'_>, out: &mut [u32]) -> Result<usize, Refusal>
    ensures { (k : Contents) → Describes (delivered t.entry) k → Answered (within (merged_size (instrument_of k)) 12 (fitting (length out.old) (merged_words (instrument_of k)))) result out.old out.new }
{
    let marks = marks::nodes::all_marks(t);
    let names = root_classes::root_classes(t, marks);
    let merged = merging::merged_count(*t.outline, names);
    if 4096 < merged {
        return Err(Refusal::MergedSize);
    }
    if out.len() < merged {
        return Err(Refusal::Short);
    }
    root_words::write_root_words(t, marks, names, out);
    Ok(merged)
}

// Merged words: a word per merged state, bit k the truth of node k if that is the root or stands under it.
pub fn merged_words(file: &[u8], out: &mut [u32]) -> Result<usize, Refusal>
    ensures answer { Answered (merged_outcome file.now (length out.old)) result out.old out.new }
    ensures meaning { written_number result ≡ 0 → Holds (MergedMeans out.new) file.now }
{
    let mut nexts: [StateSet; Instrument::ALL_NEXTS] = [0; Instrument::ALL_NEXTS];
    let outline = reader::read(file, &mut nexts)?;
    let t = Delivery {
        outline: &outline,
        nexts: &nexts,
    };
    write_short(t, out)
}
