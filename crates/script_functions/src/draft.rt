//! Bodies while their lines are written.
ghost use Rattle.std.specs.Prelude.{◌≡◌, ◌≤◌, ◌+◌, ◌^◌, ◌↔◌, [], ◌∷◌, length, map, option_map, slice_get};
ghost use Rattle.std.specs.Prelude.{IfOk, OnOk, OnErr, IsErrOf};
ghost use Rattle.inc_value.specs.Choice.{Every};
ghost use Rattle.node_arena.specs.Listing.{Listed};
ghost use Rattle.script_functions.specs.Bodies.{type_at, IsTyped, IsThere, IsTypable, IsAdded, size_of};
ghost use Rattle.script_functions.specs.Lines.{line_size, parts_of};
ghost use Rattle.script_functions.specs.declared.line.Part.TheVariants as part;
ghost use Rattle.script_functions.specs.declared.line.TypedLine.{TypedLine};

use crate::typing::admitted;
use crate::{Line, ListedNode, Part, TypedLine};
use inc_value::{Sig, Ty};
use std::alloc::Global;
use std::marker::Model;
use thiserror::Error;

/// A body whose lines are still written. Each line is of its type over what stands before it.
pub struct Draft {
    sig: Sig,
    listed: Vec<ListedNode>,
    lines: Vec<TypedLine>,
    size: u64,
}

// (written out: whoever drops one proves one call, and no drop of its parts)
impl Drop for Draft {
    fn drop(self) {
        let Draft {
            sig: _,
            listed,
            lines,
            size: _,
        } = self;
        drop(listed);
        drop(lines);
    }
}

impl Model for Draft {
    ghost use Rattle.std.specs.Prelude.{◌≡◌};
    ghost use Rattle.script_functions.specs.Bodies as spec;

    ghost Value = { spec.Draft };

    ghost view = { λ d. record { sig = d.sig; listed = d.listed.items; lines = d.lines.items } };

    ghost use Rattle.script_functions.specs.Bodies.{IsTyped, size_of};

    ghost invariant = { λ d. IsTyped (record { sig = d.sig; listed = d.listed.items; lines = d.lines.items })
        × (d.size ≡ size_of (record { sig = d.sig; listed = d.listed.items; lines = d.lines.items })) };
}

/// Why a line isn't added, or a body not finished.
#[derive(Clone, Copy, Debug, PartialEq, Eq, Error)]
pub enum LineFault {
    /// A part isn't there.
    #[error("a part isn't there")]
    Unknown,
    /// The types don't fit.
    #[error("the types don't fit")]
    WrongType,
    /// It would take more nodes than can be counted.
    #[error("it takes too many nodes")]
    TooLarge,
    /// There is no memory for it.
    #[error("out of memory")]
    Memory,
}

impl Draft {
    /// The start of a body that makes right sides of these types and reads these nodes: its line 0
    /// alone, which is the left value.
    pub fn new(alloc: Global, sig: Sig, listed: Vec<ListedNode>) -> Draft
        ensures { result ≡ record { sig = sig; listed = listed.items; lines = [] } }
    {
        Draft {
            sig,
            listed,
            lines: Vec::new(alloc),
            size: 1,
        }
    }

    /// The types of the left value and of the captures, and the one of the right sides.
    pub fn sig(&self) -> Sig
        ensures value { result ≡ self.now.sig }
        ensures some { 1 ≤ length self.now.sig.takes }
    {
        let _ = self.sig.takes();
        self.sig
    }

    /// The nodes that lines may read, each with its type.
    pub fn listed(&self) -> &[ListedNode]
        ensures { result.now ≡ self.now.listed }
    {
        &self.listed
    }

    /// The lines after line 0, each of its type.
    pub fn lines(&self) -> &[TypedLine]
        ensures value { result.now ≡ self.now.lines }
        ensures typed { IsTyped self.now }
    {
        &self.lines
    }

    /// How many nodes a right side takes at most, with those of the scopes within.
    pub fn size(&self) -> u64
        ensures { result ≡ size_of self.now }
    {
        self.size
    }

    /// The type of a part, if it is there.
    pub fn type_of(&self, part: Part) -> Option<Ty>
        ensures { result ≡ type_at self.now part }
    {
        match part {
            Part::Listed(place) => listed_type(&self.listed, place),
            Part::Captured(place) => self.sig.takes()[1..].get(place).copied(),
            Part::Line(place) => line_type(self.sig.takes()[0], &self.lines, place),
        }
    }

    /// Adds a line, and gives the part that reads it. What is looked at comes in the order of the
    /// faults; a refused call leaves the lines as they were.
    pub fn add(&mut self, line: Line) -> Result<Part, LineFault>
        ensures part { IfOk result (λ p. p ≡ part.Line (length self.old.lines + 1)) }
        ensures added { OnOk result (IsAdded self.old self.new line) }
        ensures unknown { IsErrOf result LineFault.Unknown ↔ ¬ Every (IsThere self.old) (parts_of line) }
        ensures wrong_type { IsErrOf result LineFault.WrongType
            ↔ (Every (IsThere self.old) (parts_of line) × ¬ IsTypable self.old line) }
        ensures too_large { IsErrOf result LineFault.TooLarge
            ↔ (IsTypable self.old line × (2 ^ 64 ≤ size_of self.old + line_size line)) }
        ensures err { OnErr result (self.new ≡ self.old) }
    {
        let (ty, size) = match admitted(self, &line) {
            Ok(admitted) => admitted,
            Err(fault) => {
                drop(line);
                return Err(fault);
            }
        };
        if self.lines.reserve(1).is_err() {
            drop(line);
            return Err(LineFault::Memory);
        }
        self.lines.push_reserved(TypedLine { line, ty });
        self.size = size;
        Ok(Part::Line(self.lines.len()))
    }
}

/// The type of the listed node at the place.
fn listed_type(listed: &[ListedNode], place: usize) -> Option<Ty>
    ensures { result ≡ option_map (λ (x : Listed). x.ty) (slice_get listed.now place) }
{
    match listed.get(place) {
        Some(listed) => Some(listed.ty()),
        None => None,
    }
}

/// The type of the line at the place.
fn later_type(lines: &[TypedLine], place: usize) -> Option<Ty>
    ensures { result ≡ slice_get (map (λ (x : TypedLine). x.ty) lines.now) place }
{
    match lines.get(place) {
        Some(row) => Some(row.ty),
        None => None,
    }
}

/// The type of the line at the place, where line 0 is the left value.
fn line_type(left: Ty, lines: &[TypedLine], place: usize) -> Option<Ty>
    ensures { result ≡ slice_get (left ∷ map (λ (x : TypedLine). x.ty) lines.now) place }
{
    if place == 0 {
        return Some(left);
    }
    later_type(lines, place - 1)
}
