// The words of a line, and the numbers that follow the first of them.
ghost use Rattle.std.specs.Prelude.{◌+◌, ◌≤◌, length};
ghost use Rattle.arguments.specs.Words.{Ends, words_from, Reads};

use crate::number;
use arrayvec::ArrayVec;

// Where the word that begins at a place ends: at the next space, or with the line.
pub(crate) fn word_end(line: &[u8], from: usize) -> usize
    requires { from ≤ length line.now }
    ensures { Ends line.now from result }
{
    match line[from..].iter().position(|byte| *byte == b' ') {
        Some(n) => from + n,
        None => line.len(),
    }
}

// The numbers of the words that begin at a place or later, at most eight; none where a word is no number.
pub(crate) fn read_numbers(line: &[u8], from: usize) -> Option<ArrayVec<u32, 8>>
    requires { from ≤ length line.now + 1 }
    ensures { Reads result (words_from line.now from) }
{
    let mut numbers = ArrayVec::new();
    let mut at = from;
    while at <= line.len() {
        let end = word_end(line, at);
        let v = number(&line[at..end])?;
        if numbers.is_full() {
            return None;
        }
        numbers.push(v);
        at = end + 1;
    }
    Some(numbers)
}
