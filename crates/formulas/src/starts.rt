// The starts.
ghost use Rattle.std.specs.Prelude.{◌≡◌, ◌≤◌};
ghost use Rattle.meaning.specs.File.Parser.{repeat};
ghost use Rattle.meaning.specs.File.Grammar.{limits};
ghost use Rattle.cursor.specs.Answers.{got, InFile};
ghost use Rattle.parsing.specs.Stages.{mapped};
ghost use Rattle.formulas.specs.Formulas.{start_by, start_list, all_starts};

use cursor::{Cursor, Read, Refusal};
use instrument::Instrument;
use parsing::lists;

// So many starts from the front of an array on.
#[derive(Clone, Copy)]
pub struct StartList {
    pub count: u32,
    pub starts: [u32; Instrument::ALL_STARTS],
}

// So many starts of n components of these sizes.
fn counted_starts(
    from: Cursor<'_>,
    count: u32,
    n: usize,
    sizes: [u32; Instrument::MAX_COMPONENTS],
) -> Read<'_, StartList>
    requires { (count ≤ limits.starts) × (n ≤ limits.components) }
    ensures answer { got result ≡ mapped start_list (repeat (start_by sizes n) count from.entry.file.now from.entry.at) }
    ensures same_file { InFile from.entry.file.now result }
{
    let mut starts = [0; Instrument::ALL_STARTS];
    let mut place = from;
    for j in 0..count {
        let base = Instrument::MAX_COMPONENTS * j as usize;
        place = lists::start(place, sizes, &mut starts[base..base + n])?;
    }
    Ok((StartList { count, starts }, place))
}

// The start count and the starts of n components of these sizes.
#[tactic(auto, unfolding(meaning::specs::File::Grammar::between))]
pub fn starts(
    from: Cursor<'_>,
    n: u32,
    sizes: [u32; Instrument::MAX_COMPONENTS],
) -> Read<'_, StartList>
    requires { n ≤ limits.components }
    ensures answer { got result ≡ mapped start_list (all_starts sizes n from.entry.file.now from.entry.at) }
    ensures same_file { InFile from.entry.file.now result }
{
    let (count, first) = from.between(0, Instrument::MAX_STARTS as u32, Refusal::Range)?;
    counted_starts(first, count, n as usize, sizes)
}
