//! Nodes that may show something else than they did before a round.
ghost use Rattle.inc_value.specs.declared.node.NodeId.{NodeId as ANode};
ghost use Rattle.inc_terms.specs.Depend.{main};
ghost use Rattle.point_map.specs.Rows.{Holds};
ghost use Rattle.stabilizer.specs.Telling.{IsNews, NewsStay};

use inc_value::NodeId;
use node_lists::Deaths;

/// The nodes that may show something else than they did before a round.
#[derive(Drop)]
pub(crate) struct News {
    pub(crate) nodes: Vec<NodeId>,
    /// There was no memory to list one of them: then any node may be news.
    pub(crate) all: bool,
}

impl News {
    /// No node is news. The list is empty, and its room is for those that will be.
    pub(crate) fn new(nodes: Vec<NodeId>) -> News {
        News { nodes, all: false }
    }

    /// A node is news.
    pub(crate) fn add(&mut self, node: NodeId)
        ensures added { IsNews self.new node }
        ensures stay { NewsStay self.old self.new }
    {
        match self.nodes.push(node) {
            Ok(()) => {}
            Err(_) => self.all = true,
        }
    }

    /// The nodes that died are news.
    pub(crate) fn add_dead(&mut self, deaths: &Deaths)
        ensures added { (n : ANode) → Holds deaths.now.scopes (main n) → IsNews self.new n }
        ensures stay { NewsStay self.old self.new }
    {
        for place in 0..deaths.len() {
            let node = deaths.at(place);
            self.add(node);
        }
    }
}
