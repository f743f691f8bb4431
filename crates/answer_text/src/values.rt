// The lines of answers by value, and how to ask.
ghost use Rattle.std.specs.Prelude.{◌≡◌, []};
ghost use Rattle.answers.specs.Questions as asked;
ghost use Rattle.answers.specs.Printed.{printed, usage_line};
ghost use Rattle.answer_text.specs.Told.{Told};

use crate::Printed;
use cursor::Refusal;
use text::word;

// The lookup: "true" or "false".
pub(crate) fn lookup(
    file: &[u8],
    s0: u32,
    s1: u32,
    s2: u32,
    s3: u32,
    out: &mut Printed,
) -> Result<(), Refusal>
    requires { out.old.items ≡ [] }
    ensures { Told result out.new.items (printed (asked.lookup s0 s1 s2 s3) file.now) }
{
    let truth = queries::lookup(file, s0, s1, s2, s3)?;
    word(lines::truth_line(truth).as_slice(), out);
    Ok(())
}

// The verdict: "holds marks" and the like.
pub(crate) fn verdict(file: &[u8], out: &mut Printed) -> Result<(), Refusal>
    requires { out.old.items ≡ [] }
    ensures { Told result out.new.items (printed asked.verdict file.now) }
{
    let judgement = queries::verdict(file)?;
    word(lines::verdict_line(judgement).as_slice(), out);
    Ok(())
}

// One line on how to ask.
pub(crate) fn usage(out: &mut Printed)
    requires { out.old.items ≡ [] }
    ensures { out.new.items ≡ usage_line }
{
    word(
        b"usage: query full | marks | classes | merged | listing | lookup A B C D | verdict | stretch C < FILE\n",
        out,
    );
}
