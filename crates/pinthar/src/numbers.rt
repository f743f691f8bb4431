// Answers as numbers.
ghost use Rattle.std.specs.Prelude.{◌≡◌, ℕ, ◌*◌, ◌^◌};
ghost use Rattle.cursor.specs.Answers.{number};
ghost use Rattle.judgement.specs.Judged.{judgement_of};
ghost use Rattle.pinthar.specs.Numbers.{coded, truth_code, told_code};

use cursor::Refusal;
use judgement::{Judgement, Stage};

// An answer that a number below 2^32 stands for.
pub trait Answer: Copy {
    ghost code: { Self → ℕ };

    fn code(self) -> u64
        ensures { result ≡ code self };
}

// How many entries were written.
impl Answer for usize {
    ghost code = { λ n. n };

    fn code(self) -> u64 {
        self as u64
    }
}

// The root's truth.
impl Answer for bool {
    ghost code = { truth_code };

    fn code(self) -> u64 {
        u64::from(self)
    }
}

// The verdict and its stage.
impl Answer for Judgement {
    ghost code = { λ j. told_code (judgement_of j) };

    fn code(self) -> u64 {
        match self.stage {
            Stage::Marks => u64::from(self.holds),
            Stage::Merged => u64::from(self.holds) + 2,
        }
    }
}

// A refusal.
pub fn of_refusal(cause: Refusal) -> u64
    ensures { result ≡ number cause * 2 ^ 32 }
{
    cause.number() as u64 * 4294967296
}

// An answer, or the refusal.
pub fn of_answer<A: Answer>(answered: Result<A, Refusal>) -> u64
    ensures { result ≡ coded A.code answered }
{
    match answered {
        Ok(answer) => answer.code(),
        Err(cause) => of_refusal(cause),
    }
}
