//! Names of nodes, of their points and of observers.
ghost use Rattle.std.specs.Prelude.{◌≡◌};
ghost use Rattle.inc_value.specs.declared.node.Part.TheVariants.{Main, Change};

/// A node of a graph. `gen_` is how many ids the graph's arena had given before this one, so no two
/// nodes of one arena ever share an id, and `slot` is where the node stands while it lives.
#[derive(Clone, Copy, Debug, Default, PartialEq, Eq)]
pub struct NodeId {
    pub slot: usize,
    pub gen_: u64,
}

/// An observer: how many of the same graph were made before it.
#[derive(Clone, Copy, PartialEq, Eq)]
pub struct ObsId(pub u32);

/// A bind, an if and a join are two points each, change and main; every other node is main alone.
#[derive(Clone, Copy, Debug, PartialEq, Eq)]
pub enum Part {
    Change,
    Main,
}

/// A point of a node: what is taken from the recompute heap at once.
#[derive(Clone, Copy, Debug, PartialEq, Eq)]
pub struct Point {
    pub node: NodeId,
    pub part: Part,
}

impl Point {
    /// The main of a node.
    #[inline]
    pub fn main(node: NodeId) -> Point
        ensures { result ≡ record { node = node; part = Main } }
    {
        Point {
            node,
            part: Part::Main,
        }
    }

    /// The change of a node of two points.
    #[inline]
    pub fn change(node: NodeId) -> Point
        ensures { result ≡ record { node = node; part = Change } }
    {
        Point {
            node,
            part: Part::Change,
        }
    }
}
