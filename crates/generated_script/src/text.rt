//! The text of generated scripts.
ghost use Rattle.std.specs.Prelude.{◌≡◌, [], ◌∷◌, ◌++◌, OnOk, OnErr, IfOk, codes};
ghost use Rattle.generated_script.specs.Generated.{text_of, sets_number, sets_truth, sets_reference, advances_clock, declares_node, step_by, step_from, generated_text};

use crate::draws::Draws;
use crate::numbers::add_number;
use std::alloc::{AllocError, Global};

/// What all steps work on.
const FIRST_LINES: &[u8] = b"var v0 int 0
var v1 int 1
var v2 int 2
var v3 int 3
var v4 int 4
var v5 int 5
var v6 int 6
var v7 int 7
var c bool true
var h node int &v0
let s fold add from 0 [v0, v1, v2, v3, v4, v5, v6, v7]
let q if c then v0 else s
let b bind w = v1 in add(mul(w, v2), v3)
let j join(h)
let t every 10s
let m max(add(q, b), add(j, t))
observe o m
watch o
stabilize
";

/// Appends a step that sets one of the eight variables to a number below 100.
fn set_number(draws: &mut Draws, text: &mut Vec<u8>) -> Result<(), AllocError>
    ensures lines { OnOk result (text.new.items ≡ text.old.items ++ text_of (sets_number draws.old.state).lines) }
    ensures draws { OnOk result (draws.new.state ≡ (sets_number draws.old.state).after) }
{
    add_number(b"set v", draws.below(8), text)?;
    add_number(b" ", draws.below(100), text)?;
    text.extend_from_slice(b"\n")
}

/// Appends a step that sets the condition.
fn set_truth(draws: &mut Draws, text: &mut Vec<u8>) -> Result<(), AllocError>
    ensures lines { OnOk result (text.new.items ≡ text.old.items ++ text_of (sets_truth draws.old.state).lines) }
    ensures draws { OnOk result (draws.new.state ≡ (sets_truth draws.old.state).after) }
{
    if draws.below(2) == 1 {
        text.extend_from_slice(b"set c true\n")
    } else {
        text.extend_from_slice(b"set c false\n")
    }
}

/// Appends a step that sets the reference to one of the eight variables.
fn set_reference(draws: &mut Draws, text: &mut Vec<u8>) -> Result<(), AllocError>
    ensures lines { OnOk result (text.new.items ≡ text.old.items ++ text_of (sets_reference draws.old.state).lines) }
    ensures draws { OnOk result (draws.new.state ≡ (sets_reference draws.old.state).after) }
{
    add_number(b"set h &v", draws.below(8), text)?;
    text.extend_from_slice(b"\n")
}

/// Appends a step that lets up to 19 seconds pass.
fn advance_clock(draws: &mut Draws, text: &mut Vec<u8>) -> Result<(), AllocError>
    ensures lines { OnOk result (text.new.items ≡ text.old.items ++ text_of (advances_clock draws.old.state).lines) }
    ensures draws { OnOk result (draws.new.state ≡ (advances_clock draws.old.state).after) }
{
    add_number(b"advance ", draws.below(20), text)?;
    text.extend_from_slice(b"s\n")
}

/// Appends a step that declares a node and observes it, named by the number of the step.
fn declare_node(number: u64, draws: &mut Draws, text: &mut Vec<u8>) -> Result<(), AllocError>
    ensures lines { OnOk result (text.new.items ≡ text.old.items ++ text_of (declares_node number draws.old.state).lines) }
    ensures draws { OnOk result (draws.new.state ≡ (declares_node number draws.old.state).after) }
{
    add_number(b"let g", number, text)?;
    add_number(b" add(m, v", draws.below(8), text)?;
    add_number(b")\nobserve p", number, text)?;
    add_number(b" g", number, text)?;
    text.extend_from_slice(b"\n")?;
    Ok(())
}

/// Appends a step of a kind below ten: six in ten set a number.
fn add_act(kind: u64, number: u64, draws: &mut Draws, text: &mut Vec<u8>) -> Result<(), AllocError>
    ensures lines { OnOk result (text.new.items ≡ text.old.items ++ text_of (step_by kind number draws.old.state).lines) }
    ensures draws { OnOk result (draws.new.state ≡ (step_by kind number draws.old.state).after) }
{
    match kind {
        0..=5 => set_number(draws, text),
        6 => set_truth(draws, text),
        7 => set_reference(draws, text),
        8 => advance_clock(draws, text),
        _ => declare_node(number, draws, text),
    }
}

/// Appends the step with this number, and a stabilize.
fn add_step(number: u64, draws: &mut Draws, text: &mut Vec<u8>) -> Result<(), AllocError>
    ensures lines { OnOk result (text.new.items ≡ text.old.items ++ text_of ((step_from number draws.old.state).lines ++ codes "stabilize" ∷ [])) }
    ensures draws { OnOk result (draws.new.state ≡ (step_from number draws.old.state).after) }
{
    let kind = draws.below(10);
    add_act(kind, number, draws, text)?;
    text.extend_from_slice(b"stabilize\n")
}

/// The text of the generated script with so many steps and this seed.
///
/// # Errors
///
/// [`AllocError`] where there is no memory for it.
pub fn gen_text(alloc: Global, steps: u64, seed: u64) -> Result<Vec<u8>, AllocError>
    ensures { IfOk result (λ text. text.items ≡ generated_text steps seed) }
{
    let mut draws = Draws::new(seed);
    let mut text = Vec::from_slice(alloc, FIRST_LINES)?;
    for step in 0..steps {
        add_step(step + 1, &mut draws, &mut text)?;
    }
    text.extend_from_slice(b"show o\n")?;
    Ok(text)
}

/// Appends the text of the generated script with so many steps and this seed. Without memory the buffer
/// is as before.
///
/// # Errors
///
/// [`AllocError`] where there is no memory for it.
pub fn append_text(
    alloc: Global,
    steps: u64,
    seed: u64,
    out: &mut Vec<u8>,
) -> Result<(), AllocError>
    ensures text { OnOk result (out.new.items ≡ out.old.items ++ generated_text steps seed) }
    ensures unwritten { OnErr result (out.new.items ≡ out.old.items) }
{
    let text = gen_text(alloc, steps, seed)?;
    out.extend_from_slice(&text)
}
