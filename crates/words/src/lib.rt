// Sets of small numbers as words, whatever their width: t is in the set w where bit t of w is 1. Each contract equates the result with a definition
// of specs/Sets.antt; what that definition means for membership is proved once, for every width, in proofs/Members.antt.
#![tactic(auto)]

ghost use Rattle.std.specs.Prelude.{◌≡◌, ◌≤◌, ◌<◌, length};
ghost use Rattle.words.specs.Sets as sets;
ghost use Rattle.words.specs.First.{First, zeros};

mod word; // word.rt: the words

pub use word::Word;

// Whether t is in w.
pub fn member<W: Word>(w: W, t: W::Place) -> bool
    requires { W.place t < W.width }
    ensures { result ≡ sets.has (W.number w) (W.place t) }
{
    (w.wide() >> W::at(t)) % 2 == 1
}

// w and t besides.
pub fn insert<W: Word>(w: W, t: W::Place) -> W
    requires { W.place t < W.width }
    ensures { W.number result ≡ sets.insert (W.number w) (W.place t) }
{
    W::narrow(w.wide() | (1u64 << W::at(t)))
}

// What is in a or in b.
pub fn union<W: Word>(a: W, b: W) -> W
    ensures { W.number result ≡ sets.union (W.number a) (W.number b) }
{
    W::narrow(a.wide() | b.wide())
}

// What is in a and in b.
pub fn intersection<W: Word>(a: W, b: W) -> W
    ensures { W.number result ≡ sets.intersection (W.number a) (W.number b) }
{
    W::narrow(a.wide() & b.wide())
}

// What is below s.
pub fn below<W: Word>(s: W::Place) -> W
    requires { W.place s ≤ W.width }
    ensures { W.number result ≡ sets.below (W.place s) }
{
    let n = W::at(s);
    if n == 64 {
        return W::narrow(u64::MAX);
    }
    W::narrow((1u64 << n) - 1)
}

// What is below s and not in w.
pub fn complement<W: Word>(w: W, s: W::Place) -> W
    requires { W.place s ≤ W.width }
    ensures { W.number result ≡ sets.complement (W.place s) (W.number w) }
{
    let all: W = below(s);
    W::narrow(all.wide() & !w.wide())
}

// Sets the first n words of an array to 0.
pub fn clear(words: &mut [u32], n: usize)
    requires { n ≤ length words.old }
    ensures { First n zeros words.old words.new }
{
    words[..n].fill(0);
}
