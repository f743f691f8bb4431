// Names, number, members and sizes of classes (document 01, Classes).
#![tactic(auto)]

ghost use Rattle.std.specs.Prelude.{◌≡◌, ◌≤◌, ◌<◌};
ghost use Rattle.meaning.specs.File.Grammar.{most_states};
ghost use Rattle.class_names.specs.Names as classes;

use classes::relation::{Rows, put};
use instrument::Instrument;
use state_words::StateSet;

// The names of the classes of a component's states, state by state; and of all components.
pub type Names = [u8; Instrument::MAX_STATES];

pub type AllNames = [Names; Instrument::MAX_COMPONENTS];

// The name of each state's class: the lowest state that it is related to.
pub fn class_names(r: Rows, states: usize) -> Names
    requires { (states ≤ most_states) × classes.Inhabited states r }
    ensures { result ≡ classes.class_names_of r states }
{
    // A loop: `rows` of classes makes an array of words, and a name is a byte.
    let mut result = [0u8; Instrument::MAX_STATES];
    for x in 0..states {
        result[x] = state_words::lowest(r[x]) as u8;
    }
    result
}

// The number of classes: states that are the name of their class.
pub fn class_count(names: Names, states: usize) -> usize
    requires { states ≤ most_states }
    ensures { result ≡ classes.class_count_of names states }
{
    // A loop: the clause counts state by state, and a chain would need a law of its own for it.
    let mut count: usize = 0;
    for c in 0..states {
        if names[c] as usize == c {
            count += 1;
        }
    }
    count
}

// The members of the class named c.
pub fn member_word(names: Names, states: usize, c: u8) -> StateSet
    requires { states ≤ most_states }
    ensures { result ≡ classes.member_word names states c }
{
    // A loop: `filter` would take the set of all states apart, which is more work for each.
    let mut result: StateSet = 0;
    for x in 0..states {
        result = put(result, x, names[x] == c);
    }
    result
}

// The size of the class named c: the number of ones in its member word.
pub fn class_size(names: Names, states: usize, c: u8) -> u32
    requires { states ≤ most_states }
    ensures { result ≡ classes.class_size names states c }
{
    state_words::size(member_word(names, states, c))
}
