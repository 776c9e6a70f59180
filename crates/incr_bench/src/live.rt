//! A graph with the nodes that were made.
ghost use Rattle.std.specs.Prelude.{◌≡◌, ◌≤◌, ◌+◌, ◌-◌, ◌^◌, ◌++◌, [], ◌∷◌, length, min, IfOk, IfErr, OnOk, OnErr, IsOk, IsErr, IsErrOf, IsTrue, None, Some};
ghost use Rattle.incr_bench.specs.Shown.{node_in, number_in, shown_by};
ghost use Rattle.incr_bench.specs.Status.{of_graph};

use crate::fault::{Fault, of_graph, of_stabilize};
use graph::{Cutoff, Graph, GraphFault};
use inc_value::{FnRef, NodeId, ObsId, Outcome, Ty, Value};
use node_arena::Functions;
use std::alloc::Global;
use std_library::Function;

/// A graph, with its nodes in the order in which they were made, and the function that is called for a negation. Nodes go by
/// their places in that order, and observers by theirs.
pub struct Live<F: Functions> {
    graph: Graph<F>,
    nodes: Vec<NodeId>,
    negation: FnRef,
    /// How many notices its stabilizes told of watched observers, up to 2^64 - 1.
    notices: u64,
}

/// Puts the node that a graph made behind the others, or tells the graph's fault.
fn append(nodes: &mut Vec<NodeId>, made: Result<NodeId, GraphFault>) -> Result<(), Fault>
    ensures appended { OnOk result (IfOk made (λ node. nodes.new.items ≡ nodes.old.items ++ node ∷ [])) }
    ensures made { OnOk result (IsOk made) }
    ensures longer { OnOk result (length nodes.new.items ≡ length nodes.old.items + 1) }
    ensures kept { OnErr result (nodes.new.items ≡ nodes.old.items) }
    ensures refused { IsErrOf result Fault.Refused → IfErr made (λ fault. of_graph fault ≡ Fault.Refused) }
    ensures stopped { IsErrOf result Fault.Refused → IsErr made }
{
    match made {
        Ok(node) => match nodes.push(node) {
            Ok(()) => Ok(()),
            Err(_) => Err(Fault::Memory),
        },
        Err(fault) => Err(of_graph(fault)),
    }
}

/// The number of an outcome; nothing else has one.
fn number_of(outcome: &Outcome) -> Result<i64, Fault>
    ensures number { IfOk result (λ number. number_in outcome.now ≡ Some number) }
    ensures none { IsErr result → number_in outcome.now ≡ None }
{
    match outcome {
        Outcome::Val(Value::Int(number)) => Ok(*number),
        Outcome::Val(Value::Bool(_) | Value::Text(_) | Value::Node(..)) | Outcome::Invalid => Err(
            Fault::Refused,
        ),
    }
}

impl<F: Functions> Live<F> {
    /// A graph without nodes over functions.
    pub fn new(alloc: Global, functions: F, negation: FnRef) -> Live<F>
        requires { F.is_sound functions }
        ensures functions { result.graph.functions ≡ functions }
        ensures empty { result.nodes.items ≡ [] }
    {
        Live {
            graph: Graph::new(alloc, functions),
            nodes: Vec::new(alloc),
            negation,
            notices: 0,
        }
    }

    /// Gives all memory back.
    pub fn end(self) {
        let Live {
            graph,
            nodes,
            negation: _negation,
            notices: _notices,
        } = self;
        drop(nodes);
        drop(graph.into_functions());
    }

    /// The functions of the graph.
    pub fn functions(&self) -> &F
        ensures { result.now ≡ self.now.graph.functions }
    {
        self.graph.functions()
    }

    /// How many nodes were made so far.
    pub fn len(&self) -> usize
        ensures { result ≡ length self.now.nodes.items }
    {
        self.nodes.len()
    }

    /// The node at a place, or one that no graph has.
    pub fn node(&self, place: usize) -> NodeId
        ensures { result ≡ node_in self.now.nodes.items place }
    {
        match self.nodes.get(place) {
            Some(node) => *node,
            None => NodeId {
                slot: 0,
                gen_: u64::MAX,
            },
        }
    }

    /// Makes a variable with its first value.
    pub fn var(&mut self, value: Value) -> Result<(), Fault>
        ensures grows { OnOk result (length self.new.nodes.items ≡ length self.old.nodes.items + 1) }
        ensures uncalled { self.new.graph.functions ≡ self.old.graph.functions }
    {
        let made = self.graph.var(value);
        append(&mut self.nodes, made)
    }

    /// Whether the function is known.
    fn knows(&self, function: &FnRef) -> bool
        ensures { result ≡ F.known self.now.graph.functions function.now }
    {
        self.graph.functions().knows(*function)
    }

    /// Makes a node that applies a function to nodes. It is refused where the function isn't known.
    pub fn map(&mut self, function: FnRef, kids: &[NodeId]) -> Result<(), Fault>
        ensures grows { OnOk result (length self.new.nodes.items ≡ length self.old.nodes.items + 1) }
        ensures uncalled { self.new.graph.functions ≡ self.old.graph.functions }
    {
        if !self.knows(&function) {
            return Err(Fault::Refused);
        }
        let made = self.graph.map(function, kids);
        append(&mut self.nodes, made)
    }

    /// Makes the negation of a node.
    pub fn neg(&mut self, kid: usize) -> Result<(), Fault>
        ensures grows { OnOk result (length self.new.nodes.items ≡ length self.old.nodes.items + 1) }
        ensures uncalled { self.new.graph.functions ≡ self.old.graph.functions }
    {
        let kids = [self.node(kid)];
        let negation = self.negation;
        self.map(negation, &kids)
    }

    /// Makes the sum of all nodes that were made so far, as one fold. It is refused where the functions know no sum.
    pub fn sum_all(&mut self) -> Result<(), Fault>
        ensures grows { OnOk result (length self.new.nodes.items ≡ length self.old.nodes.items + 1) }
        ensures uncalled { self.new.graph.functions ≡ self.old.graph.functions }
    {
        let add = Function::Add.reference();
        if !self.knows(&add) {
            return Err(Fault::Refused);
        }
        let made = self.graph.fold(add, Value::Int(0), &self.nodes);
        append(&mut self.nodes, made)
    }

    /// Makes the sum of nodes, as one fold. It is refused where the functions know no sum.
    pub fn sum(&mut self, kids: &[NodeId]) -> Result<(), Fault>
        ensures grows { OnOk result (length self.new.nodes.items ≡ length self.old.nodes.items + 1) }
        ensures uncalled { self.new.graph.functions ≡ self.old.graph.functions }
    {
        let add = Function::Add.reference();
        if !self.knows(&add) {
            return Err(Fault::Refused);
        }
        let made = self.graph.fold(add, Value::Int(0), kids);
        append(&mut self.nodes, made)
    }

    /// Makes a node that reads the first of two nodes of numbers where the test holds, else the second.
    pub fn choose(&mut self, test: usize, yes: usize, no: usize) -> Result<(), Fault>
        ensures grows { OnOk result (length self.new.nodes.items ≡ length self.old.nodes.items + 1) }
        ensures uncalled { self.new.graph.functions ≡ self.old.graph.functions }
    {
        let test = self.node(test);
        let yes = self.node(yes);
        let no = self.node(no);
        let made = self.graph.if_(Ty::Int, test, yes, no);
        append(&mut self.nodes, made)
    }

    /// Makes a node that reads the node of numbers to which another refers.
    pub fn join(&mut self, reference: usize) -> Result<(), Fault>
        ensures grows { OnOk result (length self.new.nodes.items ≡ length self.old.nodes.items + 1) }
        ensures uncalled { self.new.graph.functions ≡ self.old.graph.functions }
    {
        let reference = self.node(reference);
        let made = self.graph.join(Ty::Int, reference);
        append(&mut self.nodes, made)
    }

    /// Makes a node that shows what another one of numbers shows, and keeps the first of these that is above 0. It is refused
    /// where the functions don't know that test.
    pub fn freeze(&mut self, kid: usize) -> Result<(), Fault>
        ensures grows { OnOk result (length self.new.nodes.items ≡ length self.old.nodes.items + 1) }
        ensures uncalled { self.new.graph.functions ≡ self.old.graph.functions }
    {
        let pos = Function::Pos.reference();
        if !self.knows(&pos) {
            return Err(Fault::Refused);
        }
        let kid = self.node(kid);
        let made = self.graph.freeze(kid, pos);
        append(&mut self.nodes, made)
    }

    /// Makes the sum over a list that is empty at first. It is refused where the functions know no sum.
    pub fn expert(&mut self) -> Result<(), Fault>
        ensures grows { OnOk result (length self.new.nodes.items ≡ length self.old.nodes.items + 1) }
        ensures uncalled { self.new.graph.functions ≡ self.old.graph.functions }
    {
        let add = Function::Add.reference();
        if !self.knows(&add) {
            return Err(Fault::Refused);
        }
        let made = self.graph.expert(add, Value::Int(0));
        append(&mut self.nodes, made)
    }

    /// Puts a node behind the list of an expert.
    pub fn link(&mut self, expert: usize, place: usize) -> Result<(), Fault>
        ensures uncalled { self.new.graph.functions ≡ self.old.graph.functions }
        ensures same_nodes { self.new.nodes.items ≡ self.old.nodes.items }
        ensures untold { self.new.notices ≡ self.old.notices }
    {
        let expert = self.node(expert);
        let node = self.node(place);
        match self.graph.link(expert, node) {
            Ok(()) => Ok(()),
            Err(fault) => Err(of_graph(fault)),
        }
    }

    /// Takes the first occurrence of a node off the list of an expert.
    pub fn unlink(&mut self, expert: usize, place: usize) -> Result<(), Fault>
        ensures uncalled { self.new.graph.functions ≡ self.old.graph.functions }
        ensures same_nodes { self.new.nodes.items ≡ self.old.nodes.items }
        ensures untold { self.new.notices ≡ self.old.notices }
    {
        let expert = self.node(expert);
        let node = self.node(place);
        match self.graph.unlink(expert, node) {
            Ok(()) => Ok(()),
            Err(fault) => Err(of_graph(fault)),
        }
    }

    /// Makes a bind on a node over captured ones, whose right sides a function makes that is known and lists no nodes.
    pub fn bind(&mut self, left: usize, side: FnRef, captures: &[NodeId]) -> Result<(), Fault>
        requires known { IsTrue (F.known self.old.graph.functions side) }
        requires lists_none { (F.right self.old.graph.functions side).ids ≡ [] }
        ensures grows { OnOk result (length self.new.nodes.items ≡ length self.old.nodes.items + 1) }
        ensures uncalled { self.new.graph.functions ≡ self.old.graph.functions }
    {
        let left = self.node(left);
        let made = self.graph.bind(left, side, captures);
        append(&mut self.nodes, made)
    }

    /// Makes a node that counts the spans, in nanoseconds, that went by since it was made.
    pub fn every(&mut self, span: u64) -> Result<(), Fault>
        ensures grows { OnOk result (length self.new.nodes.items ≡ length self.old.nodes.items + 1) }
        ensures uncalled { self.new.graph.functions ≡ self.old.graph.functions }
    {
        let made = self.graph.every(span);
        append(&mut self.nodes, made)
    }

    /// Moves the time on by so many nanoseconds. It is refused where that is past the greatest.
    pub fn advance(&mut self, span: u64) -> Result<(), Fault>
        ensures uncalled { self.new.graph.functions ≡ self.old.graph.functions }
        ensures same_nodes { self.new.nodes.items ≡ self.old.nodes.items }
        ensures untold { self.new.notices ≡ self.old.notices }
    {
        let Some(time) = self.graph.time().checked_add_unsigned(span) else {
            return Err(Fault::Refused);
        };
        match self.graph.advance(time) {
            Ok(()) => Ok(()),
            Err(fault) => Err(of_graph(fault)),
        }
    }

    /// Observes a node.
    pub fn observe(&mut self, place: usize) -> Result<(), Fault>
        ensures uncalled { self.new.graph.functions ≡ self.old.graph.functions }
        ensures same_nodes { self.new.nodes.items ≡ self.old.nodes.items }
    {
        let node = self.node(place);
        match self.graph.observe(node) {
            Ok(_) => Ok(()),
            Err(fault) => Err(of_graph(fault)),
        }
    }

    /// Watches the observer at a place.
    pub fn watch(&mut self, place: usize) -> Result<(), Fault>
        ensures uncalled { self.new.graph.functions ≡ self.old.graph.functions }
        ensures same_nodes { self.new.nodes.items ≡ self.old.nodes.items }
    {
        let Ok(number) = u32::try_from(place) else {
            return Err(Fault::Refused);
        };
        match self.graph.watch(ObsId(number)) {
            Ok(()) => Ok(()),
            Err(fault) => Err(of_graph(fault)),
        }
    }

    /// Ends the observer at a place.
    pub fn unobserve(&mut self, place: usize) -> Result<(), Fault>
        ensures uncalled { self.new.graph.functions ≡ self.old.graph.functions }
        ensures untold { self.new.notices ≡ self.old.notices }
    {
        let Ok(number) = u32::try_from(place) else {
            return Err(Fault::Refused);
        };
        match self.graph.unobserve(ObsId(number)) {
            Ok(()) => Ok(()),
            Err(fault) => Err(of_graph(fault)),
        }
    }

    /// Gives a variable another value.
    pub fn set(&mut self, place: usize, value: Value) -> Result<(), Fault>
        ensures uncalled { self.new.graph.functions ≡ self.old.graph.functions }
        ensures same_nodes { self.new.nodes.items ≡ self.old.nodes.items }
        ensures untold { self.new.notices ≡ self.old.notices }
    {
        let node = self.node(place);
        match self.graph.set_var(node, value) {
            Ok(()) => Ok(()),
            Err(fault) => Err(of_graph(fault)),
        }
    }

    /// Has a node tell its readers of each outcome, an equal one too.
    pub fn tell_all(&mut self, place: usize) -> Result<(), Fault>
        ensures uncalled { self.new.graph.functions ≡ self.old.graph.functions }
        ensures same_nodes { self.new.nodes.items ≡ self.old.nodes.items }
    {
        let node = self.node(place);
        match self.graph.set_cutoff(node, Cutoff::Never) {
            Ok(()) => Ok(()),
            Err(fault) => Err(of_graph(fault)),
        }
    }

    /// Brings what is observed up to date, and counts what is told of it.
    pub fn stabilize(&mut self) -> Result<(), Fault>
        ensures calls_grow { F.calls self.old.graph.functions ≤ F.calls self.new.graph.functions }
        ensures same_nodes { self.new.nodes.items ≡ self.old.nodes.items }
        ensures told { OnOk result (self.new.notices ≡ min (self.old.notices + length self.new.graph.notices) (2 ^ 64 - 1)) }
        ensures untold { OnErr result (self.new.notices ≡ self.old.notices) }
    {
        match self.graph.stabilize() {
            Ok(()) => {
                let told = self.graph.round().notices.len() as u64;
                self.notices = self.notices.saturating_add(told);
                Ok(())
            }
            Err(fault) => Err(of_stabilize(fault)),
        }
    }

    /// How many notices its stabilizes told so far, up to 2^64 - 1.
    pub fn notices(&self) -> u64
        ensures { result ≡ self.now.notices }
    {
        self.notices
    }

    /// The number that the first observer shows. Where it shows none, the answer is a fault.
    pub fn shown(&self) -> Result<i64, Fault>
        ensures number { IfOk result (λ number. shown_by self.now.graph (record { 0 = 0 }) ≡ Some number) }
        ensures none { IsErr result → shown_by self.now.graph (record { 0 = 0 }) ≡ None }
    {
        match self.graph.value(ObsId(0)) {
            Ok(outcome) => number_of(outcome),
            Err(fault) => Err(of_graph(fault)),
        }
    }
}
