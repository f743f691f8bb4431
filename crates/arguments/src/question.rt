// The question that a line asks.
ghost use Rattle.std.specs.Prelude.{◌≡◌, cond};
ghost use Rattle.answers.specs.Questions.{plain, about, question_of, same_bytes, word_stretch, word_lookup, stretch, lookup, unknown};
ghost use Rattle.arguments.specs.Asked.{asks};

use crate::line::{read_numbers, word_end};

#[derive(Drop)]
pub enum Question {
    Full,
    Marks,
    Classes,
    Merged,
    Listing,
    Verdict,
    Stretch(u32),
    Lookup(u32, u32, u32, u32),
    Unknown,
}

// Whether both are the same bytes.
fn same(a: &[u8], b: &[u8]) -> bool
    ensures { result ≡ same_bytes a.now b.now }
{
    a == b
}

// A word alone. The arms of a match on byte strings need twelve proofs of their own; these tests need none.
fn word_alone(word: &[u8]) -> Question
    ensures { asks result ≡ plain word.now }
{
    if same(word, b"full") {
        return Question::Full;
    }
    if same(word, b"marks") {
        return Question::Marks;
    }
    if same(word, b"classes") {
        return Question::Classes;
    }
    if same(word, b"merged") {
        return Question::Merged;
    }
    if same(word, b"listing") {
        return Question::Listing;
    }
    if same(word, b"verdict") {
        return Question::Verdict;
    }
    Question::Unknown
}

// A word and a component's number.
fn about_component(word: &[u8], c: u32) -> Question
    ensures { asks result ≡ cond (same_bytes word.now word_stretch) (stretch c) unknown }
{
    if same(word, b"stretch") {
        return Question::Stretch(c);
    }
    Question::Unknown
}

// A word and a combined state.
fn about_state(word: &[u8], s0: u32, s1: u32, s2: u32, s3: u32) -> Question
    ensures { asks result ≡ cond (same_bytes word.now word_lookup) (lookup s0 s1 s2 s3) unknown }
{
    if same(word, b"lookup") {
        return Question::Lookup(s0, s1, s2, s3);
    }
    Question::Unknown
}

// A word and the numbers after it.
fn about_numbers(word: &[u8], numbers: &[u32]) -> Question
    ensures { asks result ≡ about word.now numbers.now }
{
    match numbers {
        [] => word_alone(word),
        [c] => about_component(word, *c),
        [s0, s1, s2, s3] => about_state(word, *s0, *s1, *s2, *s3),
        _ => Question::Unknown,
    }
}

// The question that the line asks; unknown where it is none.
pub fn question_of(line: &[u8]) -> Question
    ensures answer { asks result ≡ question_of line.now }
{
    let end = word_end(line, 0);
    match read_numbers(line, end + 1) {
        Some(numbers) => about_numbers(&line[..end], numbers.as_slice()),
        None => Question::Unknown,
    }
}
