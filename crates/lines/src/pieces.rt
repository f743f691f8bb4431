// The words and lines that are put one after the other.
ghost use Rattle.std.specs.Prelude.{◌≡◌, ◌++◌, ◌<◌};
ghost use Rattle.arrayvec.specs.ArrayVec.{Extends};
ghost use Rattle.answers.specs.Listing.{decimal};
ghost use Rattle.answers.specs.Lines.{word_at, mark_line, hexadecimal_digit, hexadecimal_byte};
ghost use Rattle.text.specs.Texts.{Room};

use arrayvec::ArrayVec;
use state_words::StateSet;
use text::{byte, decimal, word};

// Word i of a line.
pub(crate) fn word_text<const CAP: usize>(i: usize, w: u32, out: &mut ArrayVec<u8, CAP>)
    requires { Room (word_at i w) CAP out.old }
    ensures { Extends out.old (word_at i w) out.new }
{
    if i > 0 {
        byte(b' ', out);
    }
    decimal(w as u64, out);
}

// A number after its label.
fn labelled<const CAP: usize>(label: &[u8], v: u64, out: &mut ArrayVec<u8, CAP>)
    requires { Room (label.now ++ decimal v) CAP out.old }
    ensures { Extends out.old (label.now ++ decimal v) out.new }
{
    word(label, out);
    decimal(v, out);
}

// "component 0 node 1 PASS 0 FAIL 7".
pub(crate) fn mark_text<const CAP: usize>(
    c: usize,
    k: usize,
    pass: StateSet,
    fail: StateSet,
    out: &mut ArrayVec<u8, CAP>,
)
    requires { Room (mark_line c k pass fail) CAP out.old }
    ensures { Extends out.old (mark_line c k pass fail) out.new }
{
    labelled(b"component ", c as u64, out);
    labelled(b" node ", k as u64, out);
    labelled(b" PASS ", pass, out);
    labelled(b" FAIL ", fail, out);
    byte(b'\n', out);
}

// A hexadecimal digit.
fn digit(d: u8) -> u8
    requires { d < 16 }
    ensures { result ≡ hexadecimal_digit d }
{
    if d < 10 { b'0' + d } else { b'a' + (d - 10) }
}

// A byte as two hexadecimal digits.
pub(crate) fn byte_text<const CAP: usize>(b: u8, out: &mut ArrayVec<u8, CAP>)
    requires { Room (hexadecimal_byte b) CAP out.old }
    ensures { Extends out.old (hexadecimal_byte b) out.new }
{
    byte(digit(b / 16), out);
    byte(digit(b % 16), out);
}
