//! Declarations in a script.
ghost use Rattle.std.specs.Prelude.{◌≡◌, ◌<◌, ◌≤◌, ◌+◌, ◌-◌, ◌^◌, ◌++◌, ◌∷◌, [], ℕ, pos, List, length, slice_get, Some, None, IfOk, OnOk, OnErr, Ok, false};
ghost use Rattle.formula_elab.specs.Laying.{laid_body};
ghost use Rattle.formula_elab.specs.Types.{type_at};
ghost use Rattle.formula_elab.specs.Functions.{bodies_in, bodies_made};
ghost use Rattle.formula_elab.specs.Make.{Right, make_view};
ghost use Rattle.formula_elab.specs.Opened.{AreInOrder, node_at, node_of};
ghost use Rattle.formula_elab.specs.declared.make.Made.{Made};
ghost use Rattle.formula_lang.specs.CommandView.{body_view};
ghost use Rattle.formula_lang.specs.Fits.{BodyFits, DeclarationFits};
ghost use Rattle.graph.specs.Standing.{IsUnbroken};
ghost use Rattle.inc_value.specs.declared.ty.Ty.{Ty as ATy};
ghost use Rattle.node_arena.specs.Arena.{live};
ghost use Rattle.node_arena.specs.RightSide.{AreUsable};
ghost use Rattle.script_graph.specs.Growing.{AllPlannedFit, Extends, IsBodyKept, IsMadeIn, IsWelcomeMake, functions_over};
ghost use Rattle.script_graph.specs.Kept.{arena_of};
ghost use Rattle.script_graph.specs.Sound.{HaveNodes};
ghost use Rattle.script_graph.specs.State.{MatchesMoment};
ghost use Rattle.script_functions.specs.Bodies.{side_of};
ghost use Rattle.script_functions.specs.Keeping.{is_known, makers, side_in};
ghost use Rattle.script_model.specs.Check.{Declare, Declared, kind_of_body, target_of_body};
ghost use Rattle.script_model.specs.Formula.{binds_of_body, meanings_of, places_of_body};
ghost use Rattle.script_model.specs.Step.{Moment, moved};
ghost use Rattle.session.specs.Carried.{IsBeside};
ghost use Rattle.session.specs.Making.{AreMade, IsServing, KeepsFunctions, StayKnown};

use super::{Script, no_memory, or_no_memory};
use formula_elab::{Made, Make, Plan, elaborate};
use formula_lang::{Declaration, Names};
use graph::{Graph, GraphFault};
use inc_value::{NodeId, Ty};
use indexed_nodes::IndexedNodes;
use node_arena::Library;
use script_functions::{Body, ScriptFns};
use std::alloc::{AllocError, Global};

impl<L: Library> Script<L> {
    /// Declares a name that fits, after which so much room is left. Without memory nothing of it stays, but that ids of nodes may have been used up.
    pub(crate) fn declare(
        &mut self,
        name: &[u8],
        ty: Ty,
        body: &Declaration,
        room: usize,
    ) -> Result<(), AllocError>
        requires fits { DeclarationFits (L.known self.old.library) self.old.kept.names name.now ty (body_view body.now) }
        requires room { room + places_of_body (body_view body.now) ≡ self.old.kept.room }
        requires unbroken { self.old.kept.broken ≡ None }
        requires binds { binds_of_body (body_view body.now) ≤ 64 }
        requires bodies { length self.old.kept.bodies + 64 < 1099511627776 }
        requires ids { (arena_of self.old.kept).given + 2 ^ 20 < 2 ^ 64 - 1 }
        ensures declared { let F = meanings_of (L.named self.old.library) (L.value self.old.library) in
            OnOk result ((m : Moment) → MatchesMoment F self.old.kept m
            → MatchesMoment F self.new.kept (moved m (Declare name.now ty (body_view body.now)))) }
        ensures kept { let F = meanings_of (L.named self.old.library) (L.value self.old.library) in
            OnErr result ((m : Moment) → MatchesMoment F self.old.kept m → MatchesMoment F self.new.kept m) }
        ensures beside { IsBeside (2 ^ 20) 0 self.old self.new }
    {
        self.graph.keeps_sound();
        let mark = self.graph.current_mark();
        let declared = add_declared(
            self.alloc,
            &mut self.graph,
            &mut self.names,
            &mut self.nodes,
            name,
            ty,
            body,
        );
        match declared {
            Ok(()) => {
                self.graph.keeps_sound();
                self.room = room;
                Ok(())
            }
            Err(fault) => {
                self.graph.take_back(mark);
                self.graph.keeps_sound();
                Err(fault)
            }
        }
    }
}

/// Declares a name that fits, behind the others. Without memory the names are as they were, and some nodes may have been added.
fn add_declared<L: Library>(
    alloc: Global,
    graph: &mut Graph<ScriptFns<L>>,
    names: &mut Names,
    nodes: &mut IndexedNodes,
    name: &[u8],
    ty: Ty,
    body: &Declaration,
) -> Result<(), AllocError>
    requires fits { DeclarationFits (L.known graph.old.functions.library) names.old name.now ty (body_view body.now) }
    requires unbroken { IsUnbroken graph.old }
    requires one_each { length nodes.old.items ≡ length names.old.declared }
    requires has_nodes { HaveNodes graph.old.nodes names.old.declared nodes.old.items }
    requires clock { graph.old.nodes.time ≡ pos names.old.now }
    requires binds { binds_of_body (body_view body.now) ≤ 64 }
    requires bodies { length graph.old.functions.bodies.items + 64 < 1099511627776 }
    requires room { live graph.old.nodes + places_of_body (body_view body.now) ≤ 1048575 }
    requires ids { graph.old.nodes.given + 2 ^ 20 < 2 ^ 64 - 1 }
    ensures made { let plan = laid_body (node_at nodes.old.items) (type_at names.old) 0 (body_view body.now) in
        OnOk result ((made : List Made)
        × AreMade (L.known graph.new.functions.library) (L.value graph.new.functions.library) graph.new.functions.bodies.items graph.old graph.new plan.makes made
        × (nodes.new.items ≡ nodes.old.items ++ node_of made plan.root ∷ [])) }
    ensures names { OnOk result (names.new ≡ record names.old {
      declared = names.old.declared ++ record {
        name = name.now;
        ty = ty;
        kind = kind_of_body (body_view body.now);
        target = target_of_body (length names.old.declared) (body_view body.now);
      } ∷ [];
    }) }
    ensures kept { OnErr result (Extends graph.old graph.new) }
    ensures names_kept { OnErr result (names.new ≡ names.old) }
    ensures nodes_kept { OnErr result (nodes.new.items ≡ nodes.old.items) }
    ensures given { graph.new.nodes.given ≤ graph.old.nodes.given + 2 ^ 20 }
    ensures functions { KeepsFunctions graph.old.functions.library graph.new.functions.library graph.old.functions.builds graph.new.functions.builds
        graph.old.functions.bodies.items graph.new.functions.bodies.items 64 }
{
    match make_declared(alloc, graph, names, nodes.as_slice(), body) {
        Ok(node) => {
            nodes.reserve(1)?;
            let target = body.target(names.len());
            match names.declare(name, ty, body.kind(), target) {
                Ok(()) => {
                    nodes.push(node);
                    Ok(())
                }
                Err(fault) => Err(fault),
            }
        }
        Err(fault) => Err(fault),
    }
}

/// Makes the nodes of what is declared. Without memory some may have been added.
fn make_declared<L: Library>(
    alloc: Global,
    graph: &mut Graph<ScriptFns<L>>,
    names: &Names,
    nodes: &[NodeId],
    body: &Declaration,
) -> Result<NodeId, AllocError>
    requires fits { (ty : ATy) × BodyFits (L.known graph.old.functions.library) names.now (body_view body.now) ty }
    requires unbroken { IsUnbroken graph.old }
    requires one_each { length nodes.now ≡ length names.now.declared }
    requires has_nodes { HaveNodes graph.old.nodes names.now.declared nodes.now }
    requires clock { graph.old.nodes.time ≡ pos names.now.now }
    requires binds { binds_of_body (body_view body.now) ≤ 64 }
    requires bodies { length graph.old.functions.bodies.items + 64 < 1099511627776 }
    requires room { live graph.old.nodes + places_of_body (body_view body.now) ≤ 1048575 }
    requires ids { graph.old.nodes.given + 2 ^ 20 < 2 ^ 64 - 1 }
    ensures made { let plan = laid_body (node_at nodes.now) (type_at names.entry.now) 0 (body_view body.now) in
        IfOk result (λ node. (made : List Made)
        × AreMade (L.known graph.new.functions.library) (L.value graph.new.functions.library) graph.new.functions.bodies.items graph.old graph.new plan.makes made
        × (node ≡ node_of made plan.root)) }
    ensures kept { OnErr result (Extends graph.old graph.new) }
    ensures given { graph.new.nodes.given ≤ graph.old.nodes.given + 2 ^ 20 }
    ensures functions { KeepsFunctions graph.old.functions.library graph.new.functions.library graph.old.functions.builds graph.new.functions.builds
        graph.old.functions.bodies.items graph.new.functions.bodies.items 64 }
{
    graph.keeps_sound();
    match elaborate(alloc, body, names, nodes) {
        Ok(plan) => {
            let mut plan = plan;
            let made = make_all(graph, &mut plan);
            drop(plan);
            made
        }
        Err(fault) => Err(fault),
    }
}

/// Makes what is planned, one after the other. The answer is the node of what is declared.
fn make_all<L: Library>(
    graph: &mut Graph<ScriptFns<L>>,
    plan: &mut Plan,
) -> Result<NodeId, AllocError>
    requires unbroken { IsUnbroken graph.old }
    requires begins { plan.old.made ≡ [] }
    requires waits { plan.old.is_waiting ≡ false }
    requires order { AreInOrder [] plan.old.makes }
    requires fit { AllPlannedFit (L.known graph.old.functions.library) graph.old.nodes plan.old.makes }
    requires bodies { length graph.old.functions.bodies.items + bodies_in plan.old.makes ≤ 1099511627776 }
    requires room { live graph.old.nodes + length plan.old.makes ≤ 1048575 }
    requires ids { graph.old.nodes.given + length plan.old.makes < 2 ^ 64 - 1 }
    ensures made { IfOk result (λ node. (made : List Made)
        × AreMade (L.known graph.new.functions.library) (L.value graph.new.functions.library) graph.new.functions.bodies.items graph.old graph.new plan.old.makes made
        × (node ≡ node_of made plan.old.root)) }
    ensures kept { OnErr result (Extends graph.old graph.new) }
    ensures given { graph.new.nodes.given ≤ graph.old.nodes.given + length plan.old.makes }
    ensures functions { KeepsFunctions graph.old.functions.library graph.new.functions.library graph.old.functions.builds graph.new.functions.builds
        graph.old.functions.bodies.items graph.new.functions.bodies.items (bodies_in plan.old.makes) }
{
    graph.keeps_sound();
    let mut made = None;
    loop {
        match plan.next(made) {
            Ok(Some(make)) => {
                graph.keeps_sound();
                match make_one(graph, make) {
                    Ok(one) => made = Some(one),
                    Err(fault) => return Err(fault),
                }
            }
            Ok(None) => return Ok(plan.root()),
            Err(fault) => return Err(fault),
        }
    }
}

/// Makes what fits.
fn make_one<L: Library>(graph: &mut Graph<ScriptFns<L>>, make: Make) -> Result<Made, AllocError>
    requires unbroken { IsUnbroken graph.old }
    requires welcome { IsWelcomeMake (is_known (L.known graph.old.functions.library) (makers graph.old.functions.bodies.items))
        (side_in (makers graph.old.functions.bodies.items)) graph.old.nodes (make_view make) }
    requires bodies { length graph.old.functions.bodies.items + bodies_made (make_view make) ≤ 1099511627776 }
    requires room { live graph.old.nodes < 1048576 }
    requires ids { graph.old.nodes.given < 2 ^ 64 - 1 }
    ensures made { IfOk result (λ made. IsMadeIn (functions_over (L.value graph.new.functions.library) graph.new.functions.bodies.items) graph.old graph.new (make_view make) made) }
    ensures serves { IfOk result (λ made. IsServing (is_known (L.known graph.new.functions.library) (makers graph.new.functions.bodies.items))
        (side_in (makers graph.new.functions.bodies.items)) (make_view make) made) }
    ensures kept { OnErr result (Extends graph.old graph.new) }
    ensures nodes { OnErr result (graph.new.nodes ≡ graph.old.nodes) }
    ensures functions { KeepsFunctions graph.old.functions.library graph.new.functions.library graph.old.functions.builds graph.new.functions.builds
        graph.old.functions.bodies.items graph.new.functions.bodies.items (bodies_made (make_view make)) }
    ensures known { StayKnown (L.known graph.old.functions.library) (L.known graph.new.functions.library)
        graph.old.functions.bodies.items graph.new.functions.bodies.items }
{
    match make {
        Make::Body(body) => keep_body(graph, body),
        Make::Node(def, ty) => match or_no_memory(graph.add(def, ty)) {
            Ok(node) => Ok(Made::Node(node)),
            Err(fault) => Err(fault),
        },
    }
}

/// Keeps a body that can be kept.
fn keep_body<L: Library>(graph: &mut Graph<ScriptFns<L>>, body: Body) -> Result<Made, AllocError>
    requires unbroken { IsUnbroken graph.old }
    requires usable { AreUsable (is_known (L.known graph.old.functions.library) (makers graph.old.functions.bodies.items))
        (side_in (makers graph.old.functions.bodies.items)) (side_of body) }
    requires bodies { length graph.old.functions.bodies.items < 1099511627776 }
    ensures made { IfOk result (λ made. IsBodyKept (functions_over (L.value graph.new.functions.library) graph.new.functions.bodies.items) graph.old graph.new body made) }
    ensures serves { IfOk result (λ made. IsServing (is_known (L.known graph.new.functions.library) (makers graph.new.functions.bodies.items))
        (side_in (makers graph.new.functions.bodies.items)) (Right body) made) }
    ensures rest { graph.new ≡ record graph.old { functions = graph.new.functions } }
    ensures functions { KeepsFunctions graph.old.functions.library graph.new.functions.library graph.old.functions.builds graph.new.functions.builds
        graph.old.functions.bodies.items graph.new.functions.bodies.items 1 }
    ensures known { StayKnown (L.known graph.old.functions.library) (L.known graph.new.functions.library)
        graph.old.functions.bodies.items graph.new.functions.bodies.items }
{
    match graph.more(body) {
        Ok(function) => Ok(Made::Fn(function)),
        Err((fault, body)) => {
            drop(body);
            Err(no_memory(fault))
        }
    }
}
