//! A table of right sides.
ghost use Rattle.std.specs.Prelude.{◌≡◌, ◌↔◌, map, pos, IfOk, IfSome, IsSome};
ghost use Rattle.inc_value.specs.declared.function.FnKind.TheVariants.{Map, Rhs};
ghost use Rattle.inc_terms.specs.Steps.{step_of};
ghost use Rattle.closure_examples.specs.Arithmetic.{int_to_int, ints_to_int};
ghost use Rattle.closure_examples.specs.Making.{BuildsTerm, IsReady, captured};
ghost use Rattle.closure_examples.specs.Sides.{entry_of, late_two, table_term, table_uses};

use crate::adding::added;
use crate::types::{is_int_to_int, is_ints_to_int};
use inc_terms::Step;
use inc_value::{Base, FnKind, FnRef, NodeId, Sig, Ty, Value};
use node_arena::{BuildFault, Builder, RhsFn};
use std::alloc::{AllocError, Global};

/// When right sides of the table change by the clock, in nanoseconds.
const SWITCH: i64 = 5_000_000_000;

/// By the left integer, one of ten right sides over three captures: an integer, a truth value and a reference to an
/// integer. From 1 to 9 these are the constant 5, the negation of the first, the sum of the first and itself, the first
/// or else 0, what the reference names, a bind on the first, the clock, 1 and from 5 seconds on 2, and 0 and from 5 seconds on 1.
/// For any other left value it is the constant 0.
#[derive(Drop)]
pub struct Table {
    neg: FnRef,
    add: FnRef,
    of_left: FnRef,
    ghost neg_map: { neg.id.kind ≡ Map },
    ghost neg_types: { neg.sig ≡ int_to_int },
    ghost add_map: { add.id.kind ≡ Map },
    ghost add_types: { add.sig ≡ ints_to_int },
    ghost of_left_rhs: { of_left.id.kind ≡ Rhs },
    ghost of_left_types: { of_left.sig ≡ int_to_int },
}

/// Which of the right sides.
#[derive(Clone, Copy)]
enum Entry {
    Five,
    Negation,
    Double,
    Choice,
    Target,
    Nested,
    Clock,
    Stepped,
    Switched,
    Zero,
}

/// The captures.
#[derive(Clone, Copy)]
struct Captured {
    x: NodeId,
    c: NodeId,
    h: NodeId,
}

/// Which right side the left value has.
fn entry_of(left: &Value) -> Entry
    ensures { result ≡ entry_of left.now }
{
    match left {
        Value::Int(1) => Entry::Five,
        Value::Int(2) => Entry::Negation,
        Value::Int(3) => Entry::Double,
        Value::Int(4) => Entry::Choice,
        Value::Int(5) => Entry::Target,
        Value::Int(6) => Entry::Nested,
        Value::Int(7) => Entry::Clock,
        Value::Int(8) => Entry::Stepped,
        Value::Int(9) => Entry::Switched,
        _ => Entry::Zero,
    }
}

/// One step, to 2.
fn two_later(alloc: Global) -> Result<Vec<Step>, AllocError>
    ensures { IfOk result (λ steps. map step_of steps.items ≡ late_two) }
{
    let mut steps = Vec::new(alloc);
    let step = Step {
        time: SWITCH,
        value: Value::Int(2),
    };
    steps.push(step)?;
    Ok(steps)
}

impl Table {
    /// A table that calls a negation, a sum, and a function of right sides of an integer.
    pub fn new(neg: &FnRef, add: &FnRef, of_left: &FnRef) -> Option<Table>
        ensures made { IfSome result (λ t. (t.neg ≡ neg.now) × (t.add ≡ add.now) × (t.of_left ≡ of_left.now)) }
        ensures fits { IsSome result ↔ ((neg.now.id.kind ≡ Map) × (neg.now.sig ≡ int_to_int)
            × (add.now.id.kind ≡ Map) × (add.now.sig ≡ ints_to_int)
            × (of_left.now.id.kind ≡ Rhs) × (of_left.now.sig ≡ int_to_int)) }
    {
        if neg.id.kind != FnKind::Map || !is_int_to_int(neg.sig) {
            return None;
        }
        if add.id.kind != FnKind::Map || !is_ints_to_int(add.sig) {
            return None;
        }
        if of_left.id.kind != FnKind::Rhs || !is_int_to_int(of_left.sig) {
            return None;
        }
        Some(Table {
            neg: *neg,
            add: *add,
            of_left: *of_left,
        })
    }

    /// The constant 5.
    fn five(&self, captures: Captured, builder: &mut Builder) -> Result<NodeId, BuildFault>
        ensures { BuildsTerm (table_uses self.now.neg self.now.add self.now.of_left) 4 builder.old builder.new
            (captured captures) (table_term self.now.neg self.now.add self.now.of_left Entry.Five) result }
    {
        added(builder.constant(Value::Int(5)))
    }

    /// The constant 0.
    fn zero(&self, captures: Captured, builder: &mut Builder) -> Result<NodeId, BuildFault>
        ensures { BuildsTerm (table_uses self.now.neg self.now.add self.now.of_left) 4 builder.old builder.new
            (captured captures) (table_term self.now.neg self.now.add self.now.of_left Entry.Zero) result }
    {
        added(builder.constant(Value::Int(0)))
    }

    /// The negation of the first capture.
    fn negation(&self, captures: Captured, builder: &mut Builder) -> Result<NodeId, BuildFault>
        requires ready { IsReady builder.old captures }
        ensures { BuildsTerm (table_uses self.now.neg self.now.add self.now.of_left) 4 builder.old builder.new
            (captured captures) (table_term self.now.neg self.now.add self.now.of_left Entry.Negation) result }
    {
        added(builder.map(self.neg, &[captures.x]))
    }

    /// The sum of the first capture and itself.
    fn double(&self, captures: Captured, builder: &mut Builder) -> Result<NodeId, BuildFault>
        requires ready { IsReady builder.old captures }
        ensures { BuildsTerm (table_uses self.now.neg self.now.add self.now.of_left) 4 builder.old builder.new
            (captured captures) (table_term self.now.neg self.now.add self.now.of_left Entry.Double) result }
    {
        added(builder.fold(self.add, Value::Int(0), &[captures.x, captures.x]))
    }

    /// The first capture where the second is true, else 0.
    fn choice(&self, captures: Captured, builder: &mut Builder) -> Result<NodeId, BuildFault>
        requires ready { IsReady builder.old captures }
        ensures { BuildsTerm (table_uses self.now.neg self.now.add self.now.of_left) 4 builder.old builder.new
            (captured captures) (table_term self.now.neg self.now.add self.now.of_left Entry.Choice) result }
    {
        let zero = match builder.constant(Value::Int(0)) {
            Ok(id) => id,
            Err(fault) => return Err(BuildFault::from_add(fault)),
        };
        added(builder.if_(Ty::Int, captures.c, captures.x, zero))
    }

    /// What the third capture names.
    fn target(&self, captures: Captured, builder: &mut Builder) -> Result<NodeId, BuildFault>
        requires ready { IsReady builder.old captures }
        ensures { BuildsTerm (table_uses self.now.neg self.now.add self.now.of_left) 4 builder.old builder.new
            (captured captures) (table_term self.now.neg self.now.add self.now.of_left Entry.Target) result }
    {
        added(builder.join(Ty::Int, captures.h))
    }

    /// A bind on the first capture.
    fn nested(&self, captures: Captured, builder: &mut Builder) -> Result<NodeId, BuildFault>
        requires ready { IsReady builder.old captures }
        ensures { BuildsTerm (table_uses self.now.neg self.now.add self.now.of_left) 4 builder.old builder.new
            (captured captures) (table_term self.now.neg self.now.add self.now.of_left Entry.Nested) result }
    {
        added(builder.bind(captures.x, self.of_left, &[]))
    }

    /// The clock.
    fn clock(&self, captures: Captured, builder: &mut Builder) -> Result<NodeId, BuildFault>
        ensures { BuildsTerm (table_uses self.now.neg self.now.add self.now.of_left) 4 builder.old builder.new
            (captured captures) (table_term self.now.neg self.now.add self.now.of_left Entry.Clock) result }
    {
        added(builder.now())
    }

    /// 1, and 2 later.
    fn stepped(
        &self,
        alloc: Global,
        captures: Captured,
        builder: &mut Builder,
    ) -> Result<NodeId, BuildFault>
        ensures { BuildsTerm (table_uses self.now.neg self.now.add self.now.of_left) 4 builder.old builder.new
            (captured captures) (table_term self.now.neg self.now.add self.now.of_left Entry.Stepped) result }
    {
        match two_later(alloc) {
            Ok(steps) => added(builder.steps(Value::Int(1), steps)),
            Err(AllocError) => Err(BuildFault::Memory),
        }
    }

    /// 0, and 1 later.
    fn switched(&self, captures: Captured, builder: &mut Builder) -> Result<NodeId, BuildFault>
        ensures { BuildsTerm (table_uses self.now.neg self.now.add self.now.of_left) 4 builder.old builder.new
            (captured captures) (table_term self.now.neg self.now.add self.now.of_left Entry.Switched) result }
    {
        let is_later = match builder.at(SWITCH) {
            Ok(id) => id,
            Err(fault) => return Err(BuildFault::from_add(fault)),
        };
        let one = match builder.constant(Value::Int(1)) {
            Ok(id) => id,
            Err(fault) => return Err(BuildFault::from_add(fault)),
        };
        let zero = match builder.constant(Value::Int(0)) {
            Ok(id) => id,
            Err(fault) => return Err(BuildFault::from_add(fault)),
        };
        added(builder.if_(Ty::Int, is_later, one, zero))
    }

    /// One of the right sides.
    fn entry(
        &self,
        alloc: Global,
        entry: Entry,
        captures: Captured,
        builder: &mut Builder,
    ) -> Result<NodeId, BuildFault>
        requires ready { IsReady builder.old captures }
        ensures { BuildsTerm (table_uses self.now.neg self.now.add self.now.of_left) 4 builder.old builder.new
            (captured captures) (table_term self.now.neg self.now.add self.now.of_left entry) result }
    {
        match entry {
            Entry::Five => self.five(captures, builder),
            Entry::Negation => self.negation(captures, builder),
            Entry::Double => self.double(captures, builder),
            Entry::Choice => self.choice(captures, builder),
            Entry::Target => self.target(captures, builder),
            Entry::Nested => self.nested(captures, builder),
            Entry::Clock => self.clock(captures, builder),
            Entry::Stepped => self.stepped(alloc, captures, builder),
            Entry::Switched => self.switched(captures, builder),
            Entry::Zero => self.zero(captures, builder),
        }
    }
}

impl RhsFn for Table {
    ghost use Rattle.node_arena.specs.Meanings.{uncounted};
    ghost use Rattle.closure_examples.specs.Sides.{table_side, table_sig};

    ghost rhs_sig = { λ s. table_sig };

    ghost rhs = { λ s. table_side s.neg s.add s.of_left };

    ghost rhs_builds = { λ s. uncounted };

    fn sig(&self) -> Sig {
        Sig::new(&[Ty::Int, Ty::Int, Ty::Bool, Ty::Node(Base::Int)], Ty::Int)
    }

    fn build(
        &mut self,
        alloc: Global,
        left: &Value,
        captures: &[NodeId],
        builder: &mut Builder,
    ) -> Result<NodeId, BuildFault> {
        match captures {
            [x, c, h] => {
                let captures = Captured {
                    x: *x,
                    c: *c,
                    h: *h,
                };
                self.entry(alloc, entry_of(left), captures, builder)
            }
            _ => unreachable!(),
        }
    }
}
