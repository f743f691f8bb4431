// Lists of the file, one item for each place of a lent part of an array; of a refused list, the items before the fault are stored. A list that
// answers no number answers the place after it. Each list keeps its own loop: one loop over a closure would carry the grammar of its items as a
// ghost, and is no plainer.
ghost use Rattle.std.specs.Prelude.{◌≡◌, ◌+◌, ◌*◌, ◌^◌, ◌≤◌, ◌<◌, length};
ghost use Rattle.meaning.specs.File.Parser.{repeat, list_of, done};
ghost use Rattle.meaning.specs.File.Grammar.{limits, most_states, filled_set, filled_from, between, signal, signals, start_state, with_all};
ghost use Rattle.state_words.specs.Width.{state_bits};
ghost use Rattle.cursor.specs.Answers.{got, InFile};
ghost use Rattle.parsing.specs.Stages.{mapped};
ghost use Rattle.parsing.specs.Faults.{signals_before, words_before, start_before};
ghost use Rattle.parsing.specs.Steps.{Stored, moved, MovedIn};

use cursor::{Cursor, Number, Read, Refusal};
use instrument::Instrument;
use state_words::StateSet;

// A listed signal, below w and not below `low`, that is not in the set `taken`.
#[tactic(auto, unfolding(meaning::specs::File::Grammar::signal))]
fn signal(from: Cursor<'_>, w: u32, taken: u32, low: u32) -> Read<'_, u32>
    requires { w ≤ limits.signals }
    ensures answer { got result ≡ signal limits w taken low from.entry.file.now from.entry.at }
    ensures same_file { InFile from.entry.file.now result }
{
    let (v, next) = from.number()?;
    if v < low as Number || w as Number <= v {
        return Err(Refusal::Order);
    }
    let listed = v as u32;
    if words::member(taken, listed) {
        return Err(Refusal::Driven);
    }
    Ok((listed, next))
}

// Signals, strictly ascending; answers the set `known` with them besides.
pub fn signals<'a>(
    from: Cursor<'a>,
    w: u32,
    taken: u32,
    known: u32,
    out: &mut [u32],
) -> Read<'a, u32>
    requires { w ≤ limits.signals }
    ensures answer { got result ≡ mapped (with_all known) (signals limits w taken (length out.old) from.entry.file.now from.entry.at) }
    ensures same_file { InFile from.entry.file.now result }
    ensures stored { Stored (signals_before w taken (length out.old) from.entry.file.now from.entry.at) 0 out.old out.new }
{
    let mut place = from;
    let mut low: u32 = 0;
    let mut set = known;
    for slot in out {
        let (v, next) = signal(place, w, taken, low)?;
        *slot = v;
        set = words::insert(set, v);
        low = v + 1;
        place = next;
    }
    Ok((set, place))
}

// Words from lo to hi.
pub fn words_between<'a>(
    from: Cursor<'a>,
    lo: u32,
    hi: u32,
    out: &mut [u32],
) -> Result<Cursor<'a>, Refusal>
    ensures answer { moved result ≡ mapped (λ vs. done) (repeat (between limits lo hi 6) (length out.old) from.entry.file.now from.entry.at) }
    ensures same_file { MovedIn from.entry.file.now result }
    ensures stored { Stored (words_before lo hi (length out.old) from.entry.file.now from.entry.at) 0 out.old out.new }
{
    let mut place = from;
    for slot in out {
        let (v, next) = place.between(lo, hi, Refusal::Bits)?;
        *slot = v;
        place = next;
    }
    Ok(place)
}

// The successor set of state x that a word of the file means: an empty one is the state itself.
fn filled(set: StateSet, x: usize) -> StateSet
    requires { x < state_bits }
    ensures { result ≡ filled_set x set }
{
    if state_words::empty(set) {
        return state_words::insert(0, x);
    }
    set
}

// Successor sets up to hi, of states that read so many inputs; each is stored filled.
pub fn filled_sets<'a>(
    from: Cursor<'a>,
    hi: StateSet,
    inputs: u32,
    out: &mut [StateSet],
) -> Result<Cursor<'a>, Refusal>
    requires { (inputs ≤ limits.inputs) × (length out.old ≤ most_states * 2 ^ inputs) }
    ensures answer { moved result ≡ mapped (λ vs. done) (repeat (between limits 0 hi 6) (length out.old) from.entry.file.now from.entry.at) }
    ensures same_file { MovedIn from.entry.file.now result }
    ensures stored { Stored (filled_from inputs 0 (words_before 0 hi (length out.old) from.entry.file.now from.entry.at)) 0 out.old out.new }
{
    let mut place = from;
    for (p, slot) in out.iter_mut().enumerate() {
        let (set, next) = place.wide_between(0, hi, Refusal::Bits)?;
        *slot = filled(set, p >> inputs);
        place = next;
    }
    Ok(place)
}

// For each place of the part a state of that component; these are the components' sizes.
pub fn start<'a>(
    from: Cursor<'a>,
    sizes: [u32; Instrument::MAX_COMPONENTS],
    out: &mut [u32],
) -> Result<Cursor<'a>, Refusal>
    requires { length out.old ≤ limits.components }
    ensures answer { moved result ≡ mapped (λ vs. done) (list_of (start_state limits sizes) (λ c v. c + 1) (length out.old) 0 from.entry.file.now from.entry.at) }
    ensures same_file { MovedIn from.entry.file.now result }
    ensures stored { Stored (start_before sizes (length out.old) from.entry.file.now from.entry.at) 0 out.old out.new }
{
    let mut place = from;
    for (c, slot) in out.iter_mut().enumerate() {
        let (v, next) = place.less_than(sizes[c], Refusal::Start)?;
        *slot = v;
        place = next;
    }
    Ok(place)
}
