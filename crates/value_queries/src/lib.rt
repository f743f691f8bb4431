// Questions whose answer is a value: the lookup and the verdict.
#![tactic(auto)]

ghost use Rattle.std.specs.Prelude.{◌≡◌, Bool, List, [], ◌∷◌, eqb, ltb, get_or, ℕ, ◌≤◌, ◌<◌};
ghost use Rattle.meaning.specs.File.Number.{choose};
ghost use Rattle.meaning.specs.File.Grammar.{Contents, instrument_of, limits};
ghost use Rattle.meaning.specs.Reference.Answers.{merged_size};
ghost use Rattle.instrument.specs.Described.{Describes};
ghost use Rattle.instrument.specs.Delivered.{delivered};
ghost use Rattle.merging.specs.Parts.{OfComponents};
ghost use Rattle.root_words.specs.LastNode.{RootPrepared};
ghost use Rattle.answers.specs.Outcomes as outcomes;
ghost use Rattle.answers.specs.Outcomes.{given, judgement, asks_state, looked_up, lookup_of, lookup_reply, verdict_of, verdict_reply};
ghost use Rattle.answers.specs.Means.{Holds, LookupMeans, VerdictMeans};
ghost use Rattle.value_queries.specs.Told.{looked_reply, judged_reply};

use class_names::AllNames;
use cursor::Refusal;
use instrument::{Delivery, Instrument};
use judgement::Judgement;
use marks::AllMarks;
use state_words::StateSet;

// Whether x is a state of component i of n, or 0 past the last; the components have so many states each.
fn in_component(sizes: [u32; Instrument::MAX_COMPONENTS], n: usize, i: usize, x: usize) -> bool
    requires { i < limits.components }
    ensures { result ≡ choose (ltb i n) (ltb x (get_or sizes i 0)) (eqb x 0) }
{
    if i < n {
        return x < sizes[i] as usize;
    }
    x == 0
}

// Whether these are the states of a combined state.
fn asks_state(t: Delivery<'_>, states: [usize; Instrument::MAX_COMPONENTS]) -> bool
    ensures { (k : Contents) → Describes (delivered t.entry) k → result ≡ asks_state (instrument_of k) states }
{
    let sizes = t.outline.states;
    let n = t.outline.components as usize;
    let a = in_component(sizes, n, 0, states[0]);
    let b = in_component(sizes, n, 1, states[1]);
    let c = in_component(sizes, n, 2, states[2]);
    let d = in_component(sizes, n, 3, states[3]);
    d & (c & (b & a))
}

// The root's bit for these states, where the merged combination is not too large.
fn bit_of(
    t: Delivery<'_>,
    marks: AllMarks,
    names: AllNames,
    states: [usize; Instrument::MAX_COMPONENTS],
) -> bool
    requires { ((k : Contents) × RootPrepared (delivered t) marks names k × (merged_size (instrument_of k) ≤ 4096)) × OfComponents (delivered t) states }
    ensures { (k : Contents) → RootPrepared (delivered t.entry) marks names k → result ≡ looked_up (instrument_of k) states }
{
    let mut merged = [0u32; 4096];
    root_words::write_root_words(t, marks, names, &mut merged);
    root_words::root_bit(*t.outline, names, &merged, states)
}

// The lookup of a combined state on the instrument of an accepted file: 12 alone.
fn look_up(t: Delivery<'_>, states: [usize; Instrument::MAX_COMPONENTS]) -> Result<bool, Refusal>
    requires { OfComponents (delivered t) states }
    ensures { (k : Contents) → Describes (delivered t.entry) k → asks_state (instrument_of k) states ≡ Bool.true → looked_reply result ≡ lookup_of (instrument_of k) states }
{
    let marks = marks::nodes::all_marks(t);
    let names = root_classes::root_classes(t, marks);
    let n = merging::merged_count(*t.outline, names);
    if 4096 < n {
        return Err(Refusal::MergedSize);
    }
    Ok(bit_of(t, marks, names, states))
}

// 9 if the states are no combined state, then the lookup.
fn look_up_asked(
    t: Delivery<'_>,
    states: [usize; Instrument::MAX_COMPONENTS],
) -> Result<bool, Refusal>
    ensures { (k : Contents) → Describes (delivered t.entry) k → looked_reply result ≡ lookup_of (instrument_of k) states }
{
    if asks_state(t, states) {
        return look_up(t, states);
    }
    Err(Refusal::Start)
}

// The lookup: the root's truth in the combined state of these states, in component order, 0 past the last component.
pub fn lookup(file: &[u8], s0: u32, s1: u32, s2: u32, s3: u32) -> Result<bool, Refusal>
    ensures answer { looked_reply result ≡ lookup_reply file.now (s0 ∷ s1 ∷ s2 ∷ s3 ∷ []) }
    ensures meaning { (b : Bool) → looked_reply result ≡ given b → Holds (LookupMeans (s0 ∷ s1 ∷ s2 ∷ s3 ∷ []) b) file.now }
{
    let mut nexts: [StateSet; Instrument::ALL_NEXTS] = [0; Instrument::ALL_NEXTS];
    let outline = reader::read(file, &mut nexts)?;
    let t = Delivery {
        outline: &outline,
        nexts: &nexts,
    };
    let states = [s0 as usize, s1 as usize, s2 as usize, s3 as usize];
    look_up_asked(t, states)
}

// The verdict on the instrument of an accepted file: 12 alone.
fn judge(t: Delivery<'_>) -> Result<Judgement, Refusal>
    ensures { (k : Contents) → Describes (delivered t.entry) k → judged_reply result ≡ judgement (verdict_of (instrument_of k)) }
{
    Ok(verdict::judge(t)?)
}

// The verdict on the file's starts, with the stage that gives it.
pub fn verdict(file: &[u8]) -> Result<Judgement, Refusal>
    ensures answer { judged_reply result ≡ verdict_reply file.now }
    ensures meaning { (j : outcomes.Judgement) → judged_reply result ≡ given j → Holds (VerdictMeans j) file.now }
{
    let mut nexts: [StateSet; Instrument::ALL_NEXTS] = [0; Instrument::ALL_NEXTS];
    let outline = reader::read(file, &mut nexts)?;
    let t = Delivery {
        outline: &outline,
        nexts: &nexts,
    };
    judge(t)
}
