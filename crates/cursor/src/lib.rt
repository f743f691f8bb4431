// A place in an instrument file, and the numbers read from it (document 01, The instrument file). Each contract equates the answer with what
// the grammar of crate meaning says at that place (specs/File/Grammar), for every sequence of bytes.
#![tactic(auto)]

ghost use Rattle.std.specs.Prelude.{◌≡◌, ◌+◌, ◌*◌, ◌≤◌, ◌<◌, drop};
ghost use Rattle.meaning.specs.File.Parser.{found};
ghost use Rattle.meaning.specs.File.Number.{groups};
ghost use Rattle.meaning.specs.File.Grammar as grammar;
ghost use Rattle.cursor.specs.Answers.{number, got, InFile};
ghost use Rattle.cursor.specs.Carried.{carried};
ghost use Rattle.cursor.specs.Width.{number_end};

// Why a call is refused, with its number in document 01's table (14 is not used: document 02, 6/14).
#[derive(Clone, Copy, Debug, PartialEq, Eq)]
pub enum Refusal {
    Ended = 1,
    Form = 2,
    Range = 3,
    Order = 4,
    Driven = 5,
    Bits = 6,
    Formula = 7,
    Undriven = 8,
    Start = 9,
    Trailing = 10,
    FullSize = 11,
    MergedSize = 12,
    Short = 13,
}

impl Refusal {
    // Its number in document 01's table.
    pub fn number(self) -> u32
        ensures { result ≡ number self }
    {
        self as u32
    }
}

// A place in a file.
#[derive(Clone, Copy)]
pub struct Cursor<'a> {
    pub file: &'a [u8],
    pub at: usize,
}

// What is read from a place, with the place after it, or why it is refused.
pub type Read<'a, T> = Result<(T, Cursor<'a>), Refusal>;

// A number of the file, at most 2^64 - 1 (document 02, 12/14).
pub type Number = u64;

// So many groups of a number may stand before the one in the last possible place.
const GROUPS_BEFORE: u32 = 9;

// The highest group in the last possible place.
const LAST_GROUP: Number = 1;

// The number whose highest group is b, which counts `weight` times, over groups of this value. A highest group 0 is the shortest form only where
// there is no other.
fn highest(value: Number, weight: Number, b: Number, next: Cursor<'_>) -> Read<'_, Number>
    requires { value + weight * b < number_end }
    ensures answer { got result ≡ carried weight value (found b next.entry.at) }
    ensures same_file { InFile next.entry.file.now result }
{
    if b == 0 && 1 < weight {
        return Err(Refusal::Form);
    }
    Ok((value + weight * b, next))
}

impl<'a> Cursor<'a> {
    // The beginning of a file.
    pub fn start(file: &'a [u8]) -> Self
        ensures { result ≡ record { file = file.entry; at = 0 } }
    {
        Cursor { file, at: 0 }
    }

    // The number at this place; most have one group, which is read where it is asked for.
    #[inline(always)]
    pub fn number(self) -> Read<'a, Number>
        ensures answer { got result ≡ grammar.number grammar.limits self.entry.file.now self.entry.at }
        ensures same_file { InFile self.entry.file.now result }
    {
        if let Some(first) = self.file.get(self.at)
            && *first < 128
        {
            let next = Cursor {
                at: self.at + 1,
                ..self
            };
            return Ok((*first as Number, next));
        }
        self.groups()
    }

    // The number at this place, group by group. The place and the groups left go on together, so that a range would count only one of them.
    #[inline(never)]
    fn groups(self) -> Read<'a, Number>
        ensures answer { got result ≡ grammar.number grammar.limits self.entry.file.now self.entry.at }
        ensures same_file { InFile self.entry.file.now result }
    {
        let mut value: Number = 0;
        let mut weight: Number = 1;
        let mut place = self.at;
        let mut left = GROUPS_BEFORE;
        while place < self.file.len() {
            let b = self.file[place] as Number;
            let next = Cursor {
                at: place + 1,
                ..self
            };
            if left == 0 {
                if LAST_GROUP < b {
                    return Err(Refusal::Form);
                }
                return highest(value, weight, b, next);
            }
            if b < 128 {
                return highest(value, weight, b, next);
            }
            value += weight * (b % 128);
            weight *= 128;
            place += 1;
            left -= 1;
        }
        Err(Refusal::Ended)
    }

    // The number at this place if it is one from lo to hi, else the cause.
    #[tactic(auto, unfolding(meaning::specs::File::Grammar::between))]
    pub fn wide_between(self, lo: Number, hi: Number, cause: Refusal) -> Read<'a, Number>
        ensures answer { got result ≡ grammar.between grammar.limits lo hi (number cause) self.entry.file.now self.entry.at }
        ensures same_file { InFile self.entry.file.now result }
    {
        let (v, next) = self.number()?;
        if !(lo..=hi).contains(&v) {
            return Err(cause);
        }
        Ok((v, next))
    }

    // The same where hi is one of 32 bits: the number is judged at its full width and only then narrowed.
    #[tactic(auto, using(crate::proofs::Judged::between_le))]
    pub fn between(self, lo: u32, hi: u32, cause: Refusal) -> Read<'a, u32>
        ensures answer { got result ≡ grammar.between grammar.limits lo hi (number cause) self.entry.file.now self.entry.at }
        ensures same_file { InFile self.entry.file.now result }
    {
        let (v, next) = self.wide_between(lo as Number, hi as Number, cause)?;
        Ok((v as u32, next))
    }

    // The number at this place if it is below a bound, else the cause.
    #[tactic(auto, unfolding(meaning::specs::File::Grammar::less_than))]
    pub fn less_than(self, bound: u32, cause: Refusal) -> Read<'a, u32>
        ensures answer { got result ≡ grammar.less_than grammar.limits bound (number cause) self.entry.file.now self.entry.at }
        ensures same_file { InFile self.entry.file.now result }
    {
        let (v, next) = self.number()?;
        if bound as Number <= v {
            return Err(cause);
        }
        Ok((v as u32, next))
    }
}
