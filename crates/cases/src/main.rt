// What the program `query` prints for the questions about stored instrument files, through the same function (second/README.md, Stored cases). Each
// argument is the name of a case: its file has that name, and its questions, a line each, are in the file with `.ask` after it.
#![tactic(auto)]

ghost use Rattle.io.specs.Counts.{IsPrefixLen};

use answer_text::{FILE_BYTES, Printed, answer_text};
use std::fs::File;
use std::rt::{Env, Files};

// What cannot be written is not written.
fn write(rt: &impl Print, bytes: &[u8]) {
    let _ = rt.write_all(bytes);
}

// "query full", and the text for that question, which is made in the lent vector.
fn print_answer(rt: &impl Print, question: &[u8], file: &[u8], text: &mut Printed) {
    write(rt, b"query ");
    write(rt, question);
    write(rt, b"\n");
    answer_text(question, file, text);
    write(rt, text.as_slice());
}

// The questions stand a line each.
fn print_case(rt: &impl Print, name: &[u8], file: &[u8], questions: &[u8]) {
    write(rt, b"case ");
    write(rt, name);
    write(rt, b"\n");
    let mut text = Printed::new();
    for line in questions.split_inclusive(|byte| *byte == b'\n') {
        let question = line.strip_suffix(b"\n").unwrap_or(line);
        print_answer(rt, question, file, &mut text);
    }
}

// The first bytes of a file; none where it cannot be read.
fn read_file(rt: &impl Files, path: &[u8], out: &mut [u8]) -> usize
    ensures { IsPrefixLen result out.new }
{
    let Ok(path) = str::from_utf8(path) else {
        return 0;
    };
    match File::open(rt, path) {
        Ok(mut file) => host::read_full(&mut file, out),
        Err(_) => 0,
    }
}

// The case of this name, whose questions have 16,384 bytes at most.
fn read_case(rt: &(impl Files + Print), name: &[u8], asked: &[u8]) {
    let mut file = [0u8; FILE_BYTES];
    let n = read_file(rt, name, &mut file);
    let mut questions = [0u8; 16384];
    let m = read_file(rt, asked, &mut questions);
    print_case(rt, name, &file[..n], &questions[..m]);
}

// The case that argument i names: its questions are in the file with `.ask` after that name.
fn argued_case(rt: &(impl Env + Files + Print), i: usize) {
    let mut name = [0u8; 20];
    let n = host::argument(rt, i, &mut name);
    if 16 < n {
        write(rt, b"a name has at most 16 characters\n");
        return;
    }
    let mut asked = name;
    asked[n..n + 4].copy_from_slice(b".ask");
    read_case(rt, &name[..n], &asked[..n + 4]);
}

fn main(rt: HostRuntime) {
    for i in 1..usize::MAX {
        if !host::has_argument(&rt, i) {
            break;
        }
        argued_case(&rt, i);
    }
}
