// A node of the formula.
ghost use Rattle.std.specs.Prelude.{List, ℕ, ◌≡◌, ◌≤◌};
ghost use Rattle.meaning.specs.File.Grammar.{limits, named, operands, node};
ghost use Rattle.cursor.specs.Answers.{got, InFile};
ghost use Rattle.instrument.specs.Layout.{node_of};
ghost use Rattle.parsing.specs.Stages.{mapped};
ghost use Rattle.formulas.specs.Formulas.{one_operand, two_operands};

use cursor::{Cursor, Number, Read, Refusal};
use instrument::Node;

// A signal of the file that a component drives.
#[tactic(auto, unfolding(meaning::specs::File::Grammar::named))]
fn named(from: Cursor<'_>, w: u32, driven: u32) -> Read<'_, u32>
    requires { w ≤ limits.signals }
    ensures answer { got result ≡ named limits w driven from.entry.file.now from.entry.at }
    ensures same_file { InFile from.entry.file.now result }
{
    let (v, next) = from.number()?;
    if w as Number <= v {
        return Err(Refusal::Undriven);
    }
    let signal = v as u32;
    if words::member(driven, signal) {
        return Ok((signal, next));
    }
    Err(Refusal::Undriven)
}

// A node of one operand.
fn unary<'a>(kind: u32, operand: Read<'a, u32>) -> Read<'a, Node>
    ensures answer { got result ≡ mapped (one_operand kind) (got operand.entry) }
    ensures same_file { (file : List ℕ) → InFile file operand.entry → InFile file result }
{
    let (left, next) = operand?;
    let right = 0;
    Ok((Node { kind, left, right }, next))
}

// A node of two operands, both earlier nodes.
fn binary(from: Cursor<'_>, kind: u32, k: u32) -> Read<'_, Node>
    ensures answer { got result ≡ two_operands kind k from.entry.file.now from.entry.at }
    ensures same_file { InFile from.entry.file.now result }
{
    let (left, second) = from.less_than(k, Refusal::Formula)?;
    let (right, next) = second.less_than(k, Refusal::Formula)?;
    Ok((Node { kind, left, right }, next))
}

// Node k of this kind, with its operands.
fn operands(from: Cursor<'_>, w: u32, driven: u32, k: u32, kind: Number) -> Read<'_, Node>
    requires { w ≤ limits.signals }
    ensures answer { got result ≡ mapped node_of (operands limits w driven k kind from.entry.file.now from.entry.at) }
    ensures same_file { InFile from.entry.file.now result }
{
    match kind {
        0 => Ok((Node::TRUE, from)),
        1 => unary(1, named(from, w, driven)),
        2 => unary(2, from.less_than(k, Refusal::Formula)),
        3 => binary(from, 3, k),
        4 => unary(4, from.less_than(k, Refusal::Formula)),
        5 => unary(5, from.less_than(k, Refusal::Formula)),
        6 => binary(from, 6, k),
        7.. => Err(Refusal::Formula),
    }
}

// Node k: its kind, then its operands.
#[tactic(auto, unfolding(meaning::specs::File::Grammar::node))]
pub fn node(from: Cursor<'_>, w: u32, driven: u32, k: u32) -> Read<'_, Node>
    requires { w ≤ limits.signals }
    ensures answer { got result ≡ mapped node_of (node limits w driven k from.entry.file.now from.entry.at) }
    ensures same_file { InFile from.entry.file.now result }
{
    let (kind, next) = from.number()?;
    operands(next, w, driven, k, kind)
}
