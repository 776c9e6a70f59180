//! Bodies of binds to be made, over functions that may not be made yet.
ghost use Rattle.std.specs.Prelude.{◌≡◌, ◌+◌, ◌<◌, ◌^◌, ◌++◌, ℕ, List, length, sum_by, IfOk, OnErr, OnOk};
ghost use Rattle.inc_value.specs.Choice.{Every};
ghost use Rattle.inc_value.specs.Ty.{type_of_base};
ghost use Rattle.script_functions.specs.declared.line.Part.TheVariants as part;
ghost use Rattle.script_functions.specs.declared.line.TypedLine.{TypedLine};
ghost use Rattle.script_functions.specs.Bodies.{size_of as draft_size, IsAdded, IsThere, IsTypable};
ghost use Rattle.script_functions.specs.Lines.{line_size, parts_of};
ghost use Rattle.formula_elab.specs.Bodies.{line_filled, open_size, size_of, empty_page, AreAddable, IsFilled, BodyNeedsMade, LineNeedsMade};
ghost use Rattle.formula_elab.specs.Opened.{AreMadeAs, IsTyped, Planned};
ghost use Rattle.formula_elab.specs.Writing.{with_line, with_node, with_nodes_of};

use crate::make::Made;
use inc_value::{NodeId, Sig, Ty};
use script_functions::{Body, Draft, Line, LineFault, ListedNode, Part, Parts};
use std::alloc::{AllocError, Global};
use std::marker::Model;

/// A line of a body.
pub(crate) enum OpenLine {
    /// One that is ready.
    Ready(Line),
    /// The right side that a function builds of the part's value and the captures, which takes `most` nodes at most: the
    /// function that is made as the `body`-th.
    Bind {
        left: Part,
        body: usize,
        most: u64,
        captures: Parts,
    },
}

// (written out: whoever drops one proves one call, and no drop of its parts)
impl Drop for OpenLine {
    fn drop(self) {
        match self {
            OpenLine::Ready(line) => drop(line),
            OpenLine::Bind {
                left: _,
                body: _,
                most: _,
                captures,
            } => drop(captures),
        }
    }
}

impl OpenLine {
    /// The line, with what was made.
    fn filled(&self, alloc: Global, made: &[Made]) -> Result<Line, AllocError>
        requires made { LineNeedsMade made.now self.now }
        ensures { IfOk result (λ line. line ≡ line_filled made.now self.now) }
    {
        match self {
            OpenLine::Ready(line) => line.copy(alloc),
            OpenLine::Bind {
                left,
                body,
                most,
                captures,
            } => Ok(Line::Bind {
                left: *left,
                function: made[*body].function(),
                most: *most,
                captures: Parts::from_slice(alloc, captures.as_slice())?,
            }),
        }
    }

    /// How many nodes the line takes at most, with those of the scopes within.
    fn size(&self) -> u64
        requires few { open_size self.now < 2 ^ 64 }
        ensures { result ≡ open_size self.now }
    {
        match self {
            OpenLine::Ready(Line::Bind { most, .. }) => *most + 1,
            OpenLine::Ready(_) => 1,
            OpenLine::Bind { most, .. } => *most + 1,
        }
    }
}

/// The lines of a body, and the nodes that they read, while they are written.
pub(crate) struct Page {
    listed: Vec<ListedNode>,
    lines: Vec<OpenLine>,
    size: u64,
}

// (written out: whoever drops one proves one call, and no drop of its parts)
impl Drop for Page {
    fn drop(self) {
        let Page {
            listed,
            lines,
            size: _,
        } = self;
        drop(listed);
        drop(lines);
    }
}

impl Model for Page {
    ghost use Rattle.formula_elab.specs.Bodies as spec;

    ghost Value = { spec.Page };

    ghost view = { λ p. record { listed = p.listed.items; lines = p.lines.items } };

    ghost use Rattle.std.specs.Prelude.{◌≡◌};
    ghost use Rattle.formula_elab.specs.Bodies.{size_of};

    ghost invariant = { λ p. p.size ≡ size_of (record { listed = p.listed.items; lines = p.lines.items }) };
}

impl Page {
    /// No lines but line 0, the left value.
    pub(crate) fn new(alloc: Global) -> Page
        ensures { result ≡ empty_page }
    {
        Page {
            listed: Vec::new(alloc),
            lines: Vec::new(alloc),
            size: 1,
        }
    }

    /// Adds a line, and gives the part that reads it.
    pub(crate) fn add(&mut self, line: OpenLine) -> Result<Part, AllocError>
        requires few { size_of self.old + open_size line < 2 ^ 64 }
        ensures part { IfOk result (λ p. p ≡ part.Line (length self.old.lines + 1)) }
        ensures added { OnOk result (self.new ≡ with_line self.old line) }
        ensures size { OnOk result (size_of self.new ≡ size_of self.old + open_size line) }
    {
        let size = self.size + line.size();
        self.lines.push(line)?;
        self.size = size;
        Ok(Part::Line(self.lines.len()))
    }

    /// Lists a node of the type, and gives the part that reads it.
    pub(crate) fn list(&mut self, node: NodeId, ty: Ty) -> Result<Part, AllocError>
        ensures part { IfOk result (λ p. p ≡ part.Listed (length self.old.listed)) }
        ensures listed { OnOk result (self.new ≡ with_node self.old node ty) }
    {
        let part = Part::Listed(self.listed.len());
        self.listed.push(ListedNode::new(node, ty))?;
        Ok(part)
    }

    /// Lists the nodes that a body within lists.
    pub(crate) fn list_those_of(&mut self, body: &OpenBody) -> Result<(), AllocError>
        ensures { OnOk result (self.new ≡ with_nodes_of self.old body.now.page) }
    {
        self.listed.extend_from_slice(&body.listed)
    }

    /// The body of these lines, which gives the part.
    pub(crate) fn finish(self, sig: Sig, root: Part) -> OpenBody
        ensures { result ≡ record { sig = sig; page = self; root = root } }
    {
        let Page {
            listed,
            lines,
            size,
        } = self;
        OpenBody {
            sig,
            listed,
            lines,
            root,
            size,
        }
    }
}

/// The right sides of a bind.
pub(crate) struct OpenBody {
    sig: Sig,
    listed: Vec<ListedNode>,
    lines: Vec<OpenLine>,
    root: Part,
    size: u64,
}

// (written out: whoever drops one proves one call, and no drop of its parts)
impl Drop for OpenBody {
    fn drop(self) {
        let OpenBody {
            sig: _,
            listed,
            lines,
            root: _,
            size: _,
        } = self;
        drop(listed);
        drop(lines);
    }
}

impl Model for OpenBody {
    ghost use Rattle.formula_elab.specs.Bodies as spec;

    ghost Value = { spec.OpenBody };

    ghost view = { λ b. record {
      sig = b.sig;
      page = record { listed = b.listed.items; lines = b.lines.items };
      root = b.root;
    } };

    ghost use Rattle.std.specs.Prelude.{◌≡◌};
    ghost use Rattle.formula_elab.specs.Bodies.{size_of};

    ghost invariant = { λ b. b.size ≡ size_of (record { listed = b.listed.items; lines = b.lines.items }) };
}

impl OpenBody {
    /// The types of the left value and of the captures, and the one of the right sides.
    pub(crate) fn sig(&self) -> Sig
        ensures { result ≡ self.now.sig }
    {
        self.sig
    }

    /// How many nodes a right side takes at most, with those of the scopes within.
    pub(crate) fn size(&self) -> u64
        ensures { result ≡ size_of self.now.page }
    {
        self.size
    }

    /// The body, with what was made.
    pub(crate) fn filled(&self, alloc: Global, made: &[Made]) -> Result<Body, AllocError>
        requires made { BodyNeedsMade made.now self.now }
        requires typed { (earlier : List Planned) × IsTyped earlier self.now × AreMadeAs earlier made.now × (length earlier ≡ length made.now) }
        ensures { IfOk result (λ body. IsFilled made.now self.now body) }
    {
        // The size is read, so what the lines take can be counted.
        let _ = self.size();
        let listed = Vec::from_slice(alloc, &self.listed)?;
        let mut draft = Draft::new(alloc, self.sig, listed);
        match add_lines(alloc, &self.lines, made, &mut draft) {
            Ok(()) => match Body::new(draft, self.root) {
                Ok(body) => Ok(body),
                // Its lines and its root are of their types.
                Err(_) => unreachable!(),
            },
            Err(fault) => {
                drop(draft);
                Err(fault)
            }
        }
    }
}

/// Adds lines, with what was made.
fn add_lines(
    alloc: Global,
    lines: &[OpenLine],
    made: &[Made],
    draft: &mut Draft,
) -> Result<(), AllocError>
    requires made { Every (LineNeedsMade made.now) lines.now }
    requires fit { (typed : List TypedLine) × AreAddable made.now lines.now draft.old typed }
    requires few { draft_size draft.old + sum_by open_size lines.now < 2 ^ 64 }
    ensures sig { draft.new.sig ≡ draft.old.sig }
    ensures listed { draft.new.listed ≡ draft.old.listed }
    ensures added { OnOk result ((typed : List TypedLine) → AreAddable made.now lines.now draft.old typed
        → draft.new.lines ≡ draft.old.lines ++ typed) }
{
    for line in lines {
        let line = line.filled(alloc, made)?;
        add_line(draft, line)?;
    }
    Ok(())
}

/// Adds a line that is of its type, where there are few.
fn add_line(draft: &mut Draft, line: Line) -> Result<(), AllocError>
    requires there { Every (IsThere draft.old) (parts_of line) }
    requires typable { IsTypable draft.old line }
    requires few { draft_size draft.old + line_size line < 2 ^ 64 }
    ensures added { OnOk result (IsAdded draft.old draft.new line) }
    ensures err { OnErr result (draft.new ≡ draft.old) }
{
    match draft.add(line) {
        Ok(_) => Ok(()),
        Err(LineFault::Memory) => Err(AllocError),
        Err(LineFault::Unknown) => unreachable!(),
        Err(LineFault::WrongType) => unreachable!(),
        Err(LineFault::TooLarge) => unreachable!(),
    }
}
