// What a line of words asks (crate answers, specs/Questions): words with one space between them, and numbers of one to ten decimal digits, at most
// 2^32 - 1 in value.
#![tactic(auto)]

mod question; // question.rt: the question of a line
mod line; // line.rt: the words of a line, and their numbers

ghost use Rattle.std.specs.Prelude.{◌≡◌};
ghost use Rattle.arguments.specs.Decimal.{number_in};

pub use question::{Question, question_of};

// The number that the text writes, or none. What std parses begins with a plus too and may be longer.
pub fn number(text: &[u8]) -> Option<u32>
    ensures { result ≡ number_in text.now }
{
    if text.len() == 0 {
        return None;
    }
    if 10 < text.len() {
        return None;
    }
    let mut v: u64 = 0;
    for &b in text {
        if b < b'0' {
            return None;
        }
        if b'9' < b {
            return None;
        }
        v = 10 * v + (b - b'0') as u64;
    }
    u32::try_from(v).ok()
}
