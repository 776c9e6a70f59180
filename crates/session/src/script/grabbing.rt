//! Grabs: names of the right sides that binds have.
ghost use Rattle.std.specs.Prelude.{◌≡◌, ◌<◌, ℕ, List, length, None, IfSome, IfNone, IsTrue, IsFalse, OnOk, OnErr};
ghost use Rattle.formula_lang.specs.Fits.{GrabFits};
ghost use Rattle.formula_lang.specs.NamesView.{kind_view};
ghost use Rattle.inc_value.specs.declared.ty.Ty.{Ty as ATy};
ghost use Rattle.script_graph.specs.Grabbing.{IsRightSide};
ghost use Rattle.script_graph.specs.State.{MatchesMoment, Stands};
ghost use Rattle.script_model.specs.Check.{Take};
ghost use Rattle.script_model.specs.Formula.{Meanings, built_at, meanings_of};
ghost use Rattle.script_model.specs.Step.{Moment, is_built, moved};
ghost use Rattle.session.specs.Carried.{IsBeside};
ghost use Rattle.session.specs.Grabbed.{IsGrabbedAs, IsOwnOfType};
ghost use Rattle.session.specs.Replies.{HaveTargets, IsOwnNode};

use super::Script;
use super::naming::own_declaration;
use formula_lang::{Kind, Names};
use inc_value::{NodeId, Ty};
use indexed_nodes::IndexedNodes;
use node_arena::Library;
use std::alloc::AllocError;

impl<L: Library> Script<L> {
    /// The root of the right side that the bind of a target has now; none where it was never built, or was last built for
    /// Invalid.
    pub(crate) fn right_side(&self, bind: usize) -> Option<NodeId>
        requires unbroken { self.now.kept.broken ≡ None }
        requires fits { (name : List ℕ) × (ty : ATy) × GrabFits self.now.kept.names name ty bind }
        ensures some { IfSome result (λ root. IsRightSide self.now.kept bind root) }
        ensures built { IfSome result (λ root. (F : Meanings) (m : Moment) → MatchesMoment F self.now.kept m → IsTrue (is_built (built_at m.present bind))) }
        ensures none { IfNone result ((F : Meanings) (m : Moment) → MatchesMoment F self.now.kept m → IsFalse (is_built (built_at m.present bind))) }
    {
        self.graph.keeps_sound();
        match self.graph.right_side(self.nodes.at(bind)) {
            Ok(root) => root,
            Err(_) => unreachable!(),
        }
    }

    /// Declares a name for the root of a bind's right side: another name for the declaration whose own node it is, if it is
    /// one's, else a grab, which is its own target. Without memory nothing changes.
    pub(crate) fn grab(&mut self, name: &[u8], ty: Ty, root: NodeId) -> Result<(), AllocError>
        requires unbroken { self.old.kept.broken ≡ None }
        requires right_side { (bind : ℕ) × GrabFits self.old.kept.names name.now ty bind × IsRightSide self.old.kept bind root }
        ensures grabbed { let F = meanings_of (L.named self.old.library) (L.value self.old.library) in
            OnOk result ((bind : ℕ) → GrabFits self.old.kept.names name.now ty bind → IsRightSide self.old.kept bind root
            → (m : Moment) → Stands F self.old.kept m → MatchesMoment F self.new.kept (moved m (Take name.now ty bind))) }
        ensures kept { OnErr result (self.new.kept ≡ self.old.kept) }
        ensures beside { IsBeside 0 0 self.old self.new }
    {
        self.graph.keeps_sound();
        let (kind, target) = grabbed_as(&self.names, &self.nodes, root, ty);
        self.nodes.reserve(1)?;
        match self.names.declare(name, ty, kind, target) {
            Ok(()) => {
                self.nodes.push(root);
                Ok(())
            }
            Err(fault) => Err(fault),
        }
    }
}

/// How a name for a node is declared, and its target: that of the declaration whose own node it is, if it is one's, else itself.
fn grabbed_as(names: &Names, nodes: &IndexedNodes, node: NodeId, ty: Ty) -> (Kind, usize)
    requires one_each { length nodes.now.items ≡ length names.now.declared }
    requires targets { HaveTargets names.now.declared nodes.now.items }
    ensures { IsGrabbedAs names.entry.now nodes.now.items node ty (kind_view result.0) result.1 }
{
    match own_of_type(names, nodes, node, ty) {
        Some(target) => (Kind::Let, target),
        None => (Kind::Grab, names.len()),
    }
}

/// The declaration of the type that stands for itself whose node it is.
fn own_of_type(names: &Names, nodes: &IndexedNodes, node: NodeId, ty: Ty) -> Option<usize>
    requires one_each { length nodes.now.items ≡ length names.now.declared }
    requires targets { HaveTargets names.now.declared nodes.now.items }
    ensures some { IfSome result (IsOwnOfType names.entry.now nodes.now.items node ty) }
    ensures none { IfNone result ((position : ℕ) → IsOwnOfType names.entry.now nodes.now.items node ty position → ⊥) }
{
    let Some(position) = own_declaration(names, nodes, node) else {
        return None;
    };
    if names.get(position).ty == ty {
        return Some(position);
    }
    // A node is of one type, so that this never comes.
    search_of_type(names, nodes.as_slice(), node, ty)
}

/// The declaration of the type that stands for itself whose node it is, looked for among all.
fn search_of_type(names: &Names, nodes: &[NodeId], node: NodeId, ty: Ty) -> Option<usize>
    requires one_each { length nodes.now ≡ length names.now.declared }
    ensures some { IfSome result (IsOwnOfType names.entry.now nodes.now node ty) }
    ensures none { IfNone result ((position : ℕ) → IsOwnOfType names.entry.now nodes.now node ty position → ⊥) }
{
    for position in 0..nodes.len() {
        if is_own_node(names, nodes, node, position) && names.get(position).ty == ty {
            return Some(position);
        }
    }
    None
}

/// Whether the declaration at a position stands for itself and has the node.
fn is_own_node(names: &Names, nodes: &[NodeId], node: NodeId, position: usize) -> bool
    requires one_each { length nodes.now ≡ length names.now.declared }
    requires within { position < length nodes.now }
    ensures yes { IsTrue result → IsOwnNode names.entry.now nodes.now node position }
    ensures no { IsFalse result → IsOwnNode names.entry.now nodes.now node position → ⊥ }
{
    names.get(position).target == position && nodes[position] == node
}
