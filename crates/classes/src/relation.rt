// Relations as rows: all pairs, same level of an output, pairs of two relations, the converse.
ghost use Rattle.std.specs.Prelude.{◌≡◌, cond, ℕ, ◌≤◌, ◌<◌, length};
ghost use Rattle.words.specs.Sets.{insert, union};
ghost use Rattle.meaning.specs.File.Grammar.{most_states};
ghost use Rattle.classes.specs.Rows.{RowsOf};
ghost use Rattle.classes.specs.Related.{related_all, related_level, related_both};
ghost use Rattle.classes.specs.Matching.{conversed};
ghost use Rattle.classes.specs.Changed.{Changed};

use instrument::Instrument;
use state_words::StateSet;

// A relation: a row for each state, the states that it is related to.
pub type Rows = [StateSet; Instrument::MAX_STATES];

// w, and t besides if yes.
pub fn put(w: StateSet, t: usize, yes: bool) -> StateSet
    requires { t < most_states }
    ensures { result ≡ cond yes (insert w t) w }
{
    if yes { state_words::insert(w, t) } else { w }
}

// a if yes, else b. A function, since an `if` at each place where it is called is no plainer.
pub fn pick(yes: bool, a: StateSet, b: StateSet) -> StateSet
    ensures { result ≡ cond yes a b }
{
    if yes { a } else { b }
}

// A row for each state, and nothing past the last one.
pub fn rows<F: Fn(usize) -> StateSet>(states: usize, row: F) -> Rows
    requires few { states ≤ most_states }
    requires callable { (x : ℕ) → x < states → F.pre row x }
    ensures { RowsOf (λ x w. F.post row x w) states result }
{
    let mut result = [0; Instrument::MAX_STATES];
    for x in 0..states {
        result[x] = row(x);
    }
    result
}

// Every state is related to every state (true, foreign signal).
pub fn rel_all(states: usize) -> Rows
    requires { states ≤ most_states }
    ensures { result ≡ related_all states }
{
    let all = state_words::below(states);
    rows(states, |_| all)
}

// States with the same level of the j-th listed output are related (own signal).
pub fn rel_level(outs: &[u32], states: usize, j: u32) -> Rows
    requires { (states ≤ most_states) × (states ≤ length outs.now) × (j < 32) }
    ensures { result ≡ related_level outs.now states j }
{
    // A loop: `filter` would take the set of all states apart, which is more work for each.
    let mut high: StateSet = 0;
    for y in 0..states {
        high = put(high, y, words::member(outs[y], j));
    }
    let low = state_words::complement(high, states);
    rows(
        states,
        |x|
            requires { (x < length outs.now) × (j < 32) }
        { pick(words::member(outs[x], j), high, low) },
    )
}

// What is related by both (operands of or, EU).
pub fn rel_both(a: &Rows, b: &Rows, states: usize) -> Rows
    requires { states ≤ most_states }
    ensures { result ≡ related_both states a.now b.now }
{
    let all = state_words::below(states);
    rows(states, |x| {
        state_words::intersection(all, state_words::intersection(a[x], b[x]))
    })
}

// Puts `more` into the words at some places.
pub fn mark(words: &mut Rows, places: StateSet, more: StateSet)
    requires { length words.old ≡ most_states }
    ensures { Changed (union more) places words.old words.new }
{
    for z in state_words::members(places) {
        words[z] = state_words::union(more, words[z]);
    }
}

// The converse relation: each state is put into the rows of those that it is related to.
pub fn converse(r: &Rows, states: usize) -> Rows
    requires { states ≤ most_states }
    ensures { result ≡ conversed states r.now }
{
    let all = state_words::below(states);
    let mut result = [0; Instrument::MAX_STATES];
    for x in 0..states {
        let related = state_words::intersection(all, r[x]);
        mark(&mut result, related, state_words::insert(0, x));
    }
    result
}
