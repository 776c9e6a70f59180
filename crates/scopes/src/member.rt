use inc_value::NodeId;

/// A node in a scope.
#[derive(Clone, Copy)]
pub(crate) struct Member {
    pub(crate) node: NodeId,
    pub(crate) scope: NodeId,
}
