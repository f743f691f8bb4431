// One question about an instrument file, which is read from standard input: `query full`, `query lookup 0 1 0 0` (README.md, Questions). The program
// puts its arguments into a line, reads, has the text made by crate answer_text, and writes it.
#![tactic(auto)]

ghost use Rattle.std.specs.Prelude.{◌≤◌, length};
ghost use Rattle.io.specs.Counts.{IsPrefixLen};

use answer_text::{FILE_BYTES, Printed, answer_text};
use arguments::Question;
use std::rt::Env;

// Argument i put into the line at a place; the place after it. One that does not fit is none. The system writes it into a slice, so the line is a
// buffer with a place, and no vector.
fn append_argument(rt: &impl Env, line: &mut [u8], at: usize, i: usize) -> usize
    requires { at ≤ length line.old }
    ensures { result ≤ length line.new }
{
    at + host::argument(rt, i, &mut line[at..])
}

// The arguments after the program's name in front of the line, with one space between them. No question is longer than the line: what does not
// fit is none.
fn argument_line(rt: &impl Env, line: &mut [u8]) -> usize
    ensures { IsPrefixLen result line.new }
{
    let mut at = append_argument(rt, line, 0, 1);
    for i in 2..usize::MAX {
        if !host::has_argument(rt, i) {
            break;
        }
        if line.len() <= at {
            return 0;
        }
        line[at] = b' ';
        at = append_argument(rt, line, at + 1, i);
    }
    at
}

// The first bytes of standard input; none are read for what is no question.
fn read_for(rt: &impl Input, line: &[u8], file: &mut [u8; FILE_BYTES]) -> usize
    ensures { IsPrefixLen result file.new }
{
    if let Question::Unknown = arguments::question_of(line) {
        return 0;
    }
    host::read_full(&mut rt.reader(), file)
}

fn print(rt: &(impl Input + Print), line: &[u8]) {
    let mut file = [0u8; FILE_BYTES];
    let n = read_for(rt, line, &mut file);
    let mut text = Printed::new();
    answer_text(line, &file[..n], &mut text);
    let _ = rt.write_all(text.as_slice());
}

fn main(rt: HostRuntime) {
    let mut line = [0u8; 256];
    let n = argument_line(&rt, &mut line);
    print(&rt, &line[..n]);
}
