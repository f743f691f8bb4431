// The nodes that roots need: themselves and the nodes under them, as a set, bit k for node k. specs/Under.antt defines the result.
#![tactic(auto)]

ghost use Rattle.std.specs.Prelude.{◌≡◌, List};
ghost use Rattle.meaning.specs.Atoms.{Atom};
ghost use Rattle.meaning.specs.Nodes as formula;
ghost use Rattle.meaning.specs.File.Grammar.{limits, with_all};
ghost use Rattle.instrument.specs.ByKind.{Operands};
ghost use Rattle.instrument.specs.Roots.{GoodRoots, listed_roots};
ghost use Rattle.marks.specs.NodeMarks.{Listing};
ghost use Rattle.subformulas.specs.Under.{under_roots, with_operands};

use instrument::{Instrument, Node, Roots};

// A set of nodes and the operands of a node besides: its kind says which it has.
fn with_operands(set: u32, node: Node) -> u32
    requires { Operands node }
    ensures { result ≡ with_operands set node }
{
    let kind = node.kind;
    match kind {
        0 => set,
        1 => set,
        2 => words::insert(set, node.left),
        3 => words::insert(words::insert(set, node.left), node.right),
        4 => words::insert(set, node.left),
        5 => words::insert(set, node.left),
        6 => words::insert(words::insert(set, node.left), node.right),
        7.. => set,
    }
}

// The roots as a set.
fn root_set(roots: Roots) -> u32
    requires { GoodRoots limits.nodes roots }
    ensures { result ≡ with_all 0 (listed_roots roots) }
{
    let mut set: u32 = 0;
    for root in &roots.nodes[..roots.count] {
        set = words::insert(set, *root);
    }
    set
}

// Operands are earlier nodes, so one way down from the last node finds all nodes under the roots.
pub fn under_roots(nodes: [Node; Instrument::MAX_NODES], count: u32, roots: Roots) -> u32
    requires { GoodRoots count roots × ((ns : List (formula.Node Atom)) × Listing nodes count ns) }
    ensures { (ns : List (formula.Node Atom)) → Listing nodes count ns → result ≡ under_roots ns (listed_roots roots) }
{
    let mut set = root_set(roots);
    for k in (0..count).rev() {
        if words::member(set, k) {
            set = with_operands(set, nodes[k as usize]);
        }
    }
    set
}
