// Text put piece by piece into a vector of bytes that has a fixed capacity: a byte, a word, a number in decimal digits.
#![tactic(auto)]

ghost use Rattle.std.specs.Prelude.{◌≡◌, [], ◌∷◌, ◌≤◌, length};
ghost use Rattle.arrayvec.specs.ArrayVec.{Extends};
ghost use Rattle.answers.specs.Listing.{decimal};
ghost use Rattle.text.specs.Texts.{Room};

use arrayvec::ArrayVec;
use itoa::Buffer;

// A text by value: the listing, or one line.
pub type Text = ArrayVec<u8, 2048>;

// The bytes of a word alone.
pub fn of_word(w: &[u8]) -> Text
    requires { length w.now ≤ 2048 }
    ensures { result.items ≡ w.now }
{
    Text::try_from(w).unwrap()
}

// One byte.
pub fn byte<const CAP: usize>(b: u8, out: &mut ArrayVec<u8, CAP>)
    requires { Room (b ∷ []) CAP out.old }
    ensures { Extends out.old (b ∷ []) out.new }
{
    out.push(b);
}

// The bytes of a word.
pub fn word<const CAP: usize>(w: &[u8], out: &mut ArrayVec<u8, CAP>)
    requires { Room w.now CAP out.old }
    ensures { Extends out.old w.now out.new }
{
    out.try_extend_from_slice(w).unwrap();
}

// A number in decimal digits.
pub fn decimal<const CAP: usize>(v: u64, out: &mut ArrayVec<u8, CAP>)
    requires { Room (decimal v) CAP out.old }
    ensures { Extends out.old (decimal v) out.new }
{
    word(Buffer::new().format(v).as_bytes(), out);
}
