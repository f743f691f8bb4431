// The formula's nodes.
ghost use Rattle.std.specs.Prelude.{◌≡◌, ◌≤◌};
ghost use Rattle.meaning.specs.File.Grammar.{limits, nodes};
ghost use Rattle.cursor.specs.Answers.{got, InFile};
ghost use Rattle.parsing.specs.Stages.{mapped};
ghost use Rattle.formulas.specs.Formulas.{node_list, all_nodes};

use super::formula;
use cursor::{Cursor, Read, Refusal};
use instrument::{Instrument, Node};

// So many nodes from the front of an array on.
#[derive(Clone, Copy)]
pub struct NodeList {
    pub count: u32,
    pub nodes: [Node; Instrument::MAX_NODES],
}

// So many nodes.
fn counted_nodes(from: Cursor<'_>, count: u32, w: u32, driven: u32) -> Read<'_, NodeList>
    requires { (count ≤ limits.nodes) × (w ≤ limits.signals) }
    ensures answer { got result ≡ mapped node_list (nodes limits w driven count from.entry.file.now from.entry.at) }
    ensures same_file { InFile from.entry.file.now result }
{
    let mut nodes = [Node::TRUE; Instrument::MAX_NODES];
    let mut place = from;
    for k in 0..count {
        let (node, next) = formula::node(place, w, driven, k)?;
        nodes[k as usize] = node;
        place = next;
    }
    Ok((NodeList { count, nodes }, place))
}

// The node count and the nodes, over w signals of which these are driven.
#[tactic(auto, unfolding(meaning::specs::File::Grammar::between))]
pub fn nodes(from: Cursor<'_>, w: u32, driven: u32) -> Read<'_, NodeList>
    requires { w ≤ limits.signals }
    ensures answer { got result ≡ mapped node_list (all_nodes w driven from.entry.file.now from.entry.at) }
    ensures same_file { InFile from.entry.file.now result }
{
    let (count, first) = from.between(1, Instrument::MAX_NODES as u32, Refusal::Range)?;
    counted_nodes(first, count, w, driven)
}
