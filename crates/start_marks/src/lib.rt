// What the marks at the root say of all starts (document 01, Verdict and listing).
#![tactic(auto)]

ghost use Rattle.std.specs.Prelude.{◌≡◌, List, ℕ, ◌+◌, ◌*◌, ◌≤◌, length};
ghost use Rattle.meaning.specs.File.Grammar.{Contents, instrument_of};
ghost use Rattle.meaning.specs.Tests.{any_below};
ghost use Rattle.instrument.specs.Outline.{whole};
ghost use Rattle.partitions.specs.Classes.{MarkedInstrument};
ghost use Rattle.start_marks.specs.Starts.{start_states, SmallStates, in_set, tally_of};

use instrument::{Instrument, Outline};
use marks::AllMarks;
use state_words::StateSet;
use std::array;

// Whether some start has a FAIL state, and whether every start has a PASS state.
#[derive(Drop)]
pub struct Tally {
    pub failing: bool,
    pub passing: bool,
}

// The states of start j, 0 past the last component.
pub fn start_states(starts: &[u32], j: usize) -> [usize; Instrument::MAX_COMPONENTS]
    requires { 4 * j + 4 ≤ length starts.now }
    ensures { result ≡ start_states starts.now j }
{
    let first = Instrument::MAX_COMPONENTS * j;
    array::from_fn(|c| starts[first + c] as usize)
}

// Whether some of the first n states is in its component's set.
fn start_marked(
    sets: [StateSet; Instrument::MAX_COMPONENTS],
    states: [usize; Instrument::MAX_COMPONENTS],
    n: usize,
) -> bool
    requires { (n ≤ 4) × SmallStates n states }
    ensures { result ≡ any_below n (in_set sets states) }
{
    (0..n).any(|c| state_words::member(sets[c], states[c]))
}

// What the marks at the root say of all starts.
pub fn tally_starts(t: Outline, marks: AllMarks) -> Tally
    requires { (nexts : List ℕ) × (k : Contents) × MarkedInstrument (whole t nexts) marks k }
    ensures { (nexts : List ℕ) (k : Contents) → MarkedInstrument (whole t nexts) marks k → result ≡ tally_of (instrument_of k) }
{
    let n = t.components as usize;
    let root = t.nodecount as usize - 1;
    let passes = array::from_fn(|c| marks[c][root].pass);
    let fails = array::from_fn(|c| marks[c][root].fail);
    let mut failing = false;
    let mut passing = true;
    for j in 0..t.startcount as usize {
        let states = start_states(&t.starts, j);
        failing |= start_marked(fails, states, n);
        passing &= start_marked(passes, states, n);
    }
    Tally { failing, passing }
}
