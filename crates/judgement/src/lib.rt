// A verdict with the stage that gives it, and the words of both (document 01, Verdict and listing).
#![tactic(auto)]

ghost use Rattle.std.specs.Prelude.{◌≡◌};
ghost use Rattle.answers.specs.Listing.{verdict_word, stage_word};
ghost use Rattle.judgement.specs.Judged.{verdict_of, stage_of};

// The marks alone give the verdict, or the merged combination does.
#[derive(Clone, Copy, PartialEq, Eq)]
pub enum Stage {
    Marks,
    Merged,
}

impl Stage {
    // "marks" or "merged".
    pub fn word(self) -> &'static [u8]
        ensures { result.now ≡ stage_word (stage_of self) }
    {
        match self {
            Stage::Marks => b"marks",
            Stage::Merged => b"merged",
        }
    }
}

// Whether every start satisfies the root, and the stage that tells.
#[derive(Clone, Copy, PartialEq, Eq)]
pub struct Judgement {
    pub holds: bool,
    pub stage: Stage,
}

impl Judgement {
    // "holds" or "fails".
    pub fn verdict_word(self) -> &'static [u8]
        ensures { result.now ≡ verdict_word (verdict_of self.holds) }
    {
        if self.holds { b"holds" } else { b"fails" }
    }
}
