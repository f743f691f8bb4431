// Questions whose answer is a value: the lookup and the verdict.
ghost use Rattle.std.specs.Prelude.{◌≡◌, Bool, [], ◌∷◌};
ghost use Rattle.answers.specs.Outcomes.{Judgement, given, lookup_reply, verdict_reply};
ghost use Rattle.answers.specs.Means.{Holds, LookupMeans, VerdictMeans};
ghost use Rattle.pinthar.specs.Numbers.{lookup_code, verdict_code};

use crate::numbers;

// The lookup: the root's truth in the combined state of these states, in component order, 0 past the last component.
#[unsafe(no_mangle)]
pub extern "C" fn pinthar_lookup(file: &[u8], s0: u32, s1: u32, s2: u32, s3: u32) -> u64
    ensures answer { result ≡ lookup_code (lookup_reply file.now (s0 ∷ s1 ∷ s2 ∷ s3 ∷ [])) }
    ensures meaning { (b : Bool) → result ≡ lookup_code (given b) → Holds (LookupMeans (s0 ∷ s1 ∷ s2 ∷ s3 ∷ []) b) file.now }
{
    numbers::of_answer(queries::lookup(file, s0, s1, s2, s3))
}

// The verdict on the file's starts, with the stage that gives it.
#[unsafe(no_mangle)]
pub extern "C" fn pinthar_verdict(file: &[u8]) -> u64
    ensures answer { result ≡ verdict_code (verdict_reply file.now) }
    ensures meaning { (j : Judgement) → result ≡ verdict_code (given j) → Holds (VerdictMeans j) file.now }
{
    numbers::of_answer(queries::verdict(file))
}
