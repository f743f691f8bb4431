// Questions whose answers are entries in a lent buffer. The result tells how many entries were written, or has the refusal's number in its
// upper 32 bits; then the buffer is as it was.
ghost use Rattle.std.specs.Prelude.{◌^◌, ◌<◌, length};
ghost use Rattle.answers.specs.Outcomes.{class_outcome, full_outcome, mark_outcome, merged_outcome};
ghost use Rattle.answers.specs.Listing.{listing_outcome};
ghost use Rattle.answers.specs.Means.{Holds, ClassesMean, FullMeans, MarksMean, MergedMeans};
ghost use Rattle.pinthar.specs.Numbers.{Returned};

use crate::numbers;
use state_words::StateSet;

// The full way: a word per combined state, bit k the truth of node k.
#[unsafe(no_mangle)]
pub extern "C" fn pinthar_full_words(file: &[u8], out: &mut [u32]) -> u64
    ensures answer { Returned (full_outcome file.now (length out.old)) result out.old out.new }
    ensures meaning { result < 2 ^ 32 → Holds (FullMeans out.new) file.now }
{
    numbers::of_answer(queries::full_words(file, out))
}

// Marks: two words for every component and node, PASS then FAIL, components outermost.
#[unsafe(no_mangle)]
pub extern "C" fn pinthar_mark_words(file: &[u8], out: &mut [StateSet]) -> u64
    ensures answer { Returned (mark_outcome file.now (length out.old)) result out.old out.new }
    ensures meaning { result < 2 ^ 32 → Holds (MarksMean out.new) file.now }
{
    numbers::of_answer(queries::mark_words(file, out))
}

// Classes: the name of every state's class, one byte per state, components in order.
#[unsafe(no_mangle)]
pub extern "C" fn pinthar_class_names(file: &[u8], out: &mut [u8]) -> u64
    ensures answer { Returned (class_outcome file.now (length out.old)) result out.old out.new }
    ensures meaning { result < 2 ^ 32 → Holds (ClassesMean out.new) file.now }
{
    numbers::of_answer(queries::class_names(file, out))
}

// Merged words: a word per merged state, bit k the truth of node k if that is the root or stands under it.
#[unsafe(no_mangle)]
pub extern "C" fn pinthar_merged_words(file: &[u8], out: &mut [u32]) -> u64
    ensures answer { Returned (merged_outcome file.now (length out.old)) result out.old out.new }
    ensures meaning { result < 2 ^ 32 → Holds (MergedMeans out.new) file.now }
{
    numbers::of_answer(queries::merged_words(file, out))
}

// The listing: the verdict's line, a line of class names for each component, the sizes, each ending with byte 10.
#[unsafe(no_mangle)]
pub extern "C" fn pinthar_listing(file: &[u8], out: &mut [u8]) -> u64
    ensures answer { Returned (listing_outcome file.now (length out.old)) result out.old out.new }
{
    numbers::of_answer(queries::listing(file, out))
}
