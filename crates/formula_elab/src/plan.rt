//! Plans.
ghost use Rattle.std.specs.Prelude.{◌≡◌, ◌↔◌, ◌≤◌, List, [], false, length, option_map, is_some};
ghost use Rattle.std.specs.Prelude.{IfOk, IfSome, IsNone, IsSome, IsTrue, OnOk, OnErr};
ghost use Rattle.formula_elab.specs.Make.{make_view};
ghost use Rattle.formula_elab.specs.Opened.{AreInOrder, AreMadeAs, AreTyped, IsEarlier, IsTypedIn, Makes, NeedsEarlier};
ghost use Rattle.formula_elab.specs.Opened.{Planned as APlanned};
ghost use Rattle.formula_elab.specs.Plan.{with_made, root_node, IsAnswer, IsMade, IsNext};

use crate::body::OpenBody;
use crate::make::{Made, Make};
use crate::opened::{Open, Part};
use inc_value::NodeId;
use std::alloc::{AllocError, Global};
use std::marker::Model;

/// What is to be made, over nodes and functions that may not be made yet.
pub(crate) enum Planned {
    /// The function of a bind's right sides.
    Body(OpenBody),
    /// A node.
    Node(Open),
}

// (written out: whoever drops one proves one call, and no drop of its parts)
impl Drop for Planned {
    fn drop(self) {
        match self {
            Planned::Body(body) => drop(body),
            Planned::Node(node) => drop(node),
        }
    }
}

impl Planned {
    /// What is to be made of it, with what was made.
    fn filled(&self, alloc: Global, made: &[Made]) -> Result<Make, AllocError>
        requires earlier { (earlier : List APlanned) × NeedsEarlier earlier self.now × IsTypedIn earlier self.now
            × AreMadeAs earlier made.now × (length earlier ≡ length made.now) }
        ensures { IfOk result (λ make. Makes made.now self.now (make_view make)) }
    {
        Ok(match self {
            Planned::Body(body) => Make::Body(body.filled(alloc, made)?),
            Planned::Node(node) => Make::Node(node.filled(alloc, made)?, node.ty()),
        })
    }
}

/// What is to be made in a graph for a declaration, one after the other.
pub struct Plan {
    alloc: Global,
    makes: Vec<Planned>,
    made: Vec<Made>,
    /// Whether the last one asked for isn't known to be made.
    is_waiting: bool,
    root: Part,
}

// (written out: whoever drops one proves one call, and no drop of its parts)
impl Drop for Plan {
    fn drop(self) {
        let Plan {
            alloc: _,
            makes,
            made,
            is_waiting: _,
            root: _,
        } = self;
        drop(makes);
        drop(made);
    }
}

impl Model for Plan {
    ghost use Rattle.formula_elab.specs.Plan.{PlanView, IsSoundPlan};

    ghost Value = { PlanView };

    ghost view = { λ p. record {
      makes = p.makes.items;
      made = p.made.items;
      is_waiting = p.is_waiting;
      root = p.root;
    } };

    ghost invariant = { λ p. IsSoundPlan p.makes.items p.made.items p.is_waiting p.root };
}

impl Plan {
    /// The plan with nothing made yet.
    pub(crate) fn new(alloc: Global, makes: Vec<Planned>, root: Part) -> Plan
        requires order { AreInOrder [] makes.items }
        requires typed { AreTyped makes.items }
        requires root_within { IsEarlier makes.items root }
        ensures { result ≡ record { makes = makes.items; made = []; is_waiting = false; root = root } }
    {
        Plan {
            alloc,
            makes,
            made: Vec::new(alloc),
            is_waiting: false,
            root,
        }
    }

    /// What is to be made next, given what was made of the last; nothing once all is made. Without memory the plan is
    /// as it was, and can be asked the same again.
    pub fn next(&mut self, made: Option<Made>) -> Result<Option<Make>, AllocError>
        requires answered { IsSome made ↔ IsTrue self.old.is_waiting }
        requires kind { IfSome made (IsAnswer self.old) }
        ensures make { IfOk result (λ make. IsNext self.new.makes self.new.made (option_map make_view make)) }
        ensures made { OnOk result (self.new.made ≡ with_made self.old.made made) }
        ensures waits { IfOk result (λ make. self.new.is_waiting ≡ is_some make) }
        ensures last { IfOk result (λ make. IsNone make ↔ IsMade self.new) }
        ensures within { length self.new.made ≤ length self.new.makes }
        ensures makes { self.new.makes ≡ self.old.makes }
        ensures root { self.new.root ≡ self.old.root }
        ensures err { OnErr result (self.new ≡ self.old) }
    {
        let count = self.made.len();
        note(&mut self.made, made)?;
        match make_behind(self.alloc, &self.makes, &self.made) {
            Ok(make) => {
                self.is_waiting = make.is_some();
                Ok(make)
            }
            Err(fault) => {
                self.made.truncate(count);
                Err(fault)
            }
        }
    }

    /// The node of what is declared, once all is made: the last one made, or the one that a bare name stands for.
    pub fn root(&self) -> NodeId
        requires made { IsMade self.now }
        ensures { result ≡ root_node self.now }
    {
        self.root.node(&self.made)
    }
}

/// Notes what was made of the last, if something was.
fn note(made: &mut Vec<Made>, last: Option<Made>) -> Result<(), AllocError>
    ensures noted { OnOk result (made.new.items ≡ with_made made.old.items last) }
    ensures err { OnErr result (made.new.items ≡ made.old.items) }
{
    if let Some(last) = last {
        made.push(last)?;
    }
    Ok(())
}

/// What is to be made next, where this was made.
fn make_behind(alloc: Global, makes: &[Planned], made: &[Made]) -> Result<Option<Make>, AllocError>
    requires order { AreInOrder [] makes.now }
    requires typed { AreTyped makes.now }
    requires kinds { AreMadeAs makes.now made.now }
    ensures { IfOk result (λ make. IsNext makes.now made.now (option_map make_view make)) }
{
    match makes.get(made.len()) {
        Some(planned) => Ok(Some(planned.filled(alloc, made)?)),
        None => Ok(None),
    }
}
