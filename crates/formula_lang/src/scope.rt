//! The variables of the binds round a formula.
ghost use Rattle.std.specs.Prelude.{◌≡◌, ◌++◌, ◌∷◌, [], map, IfOk, OnOk};
ghost use Rattle.script_model.specs.Check.{is_among};
ghost use Rattle.formula_lang.specs.Typing.{bound_view, variable_in};

use inc_value::Ty;
use line_parser::Name;
use std::alloc::{AllocError, Global};

/// A variable of a bind, with the type of its values.
#[derive(Drop)]
pub(crate) struct Variable {
    pub(crate) name: Name,
    pub(crate) ty: Ty,
}

/// The place and the type of the innermost variable of this name, where the innermost of all comes
/// first; none where no variable has the name.
pub(crate) fn variable_named(variables: &[Variable], name: &Name) -> Option<(usize, Ty)>
    ensures { result ≡ variable_in (map bound_view variables.now) name.now }
{
    for place in 0..variables.len() {
        if name.bytes() == variables[place].name.bytes() {
            return Some((place, variables[place].ty));
        }
    }
    None
}

/// The variables within one more bind.
pub(crate) fn within(
    alloc: Global,
    name: &Name,
    ty: Ty,
    variables: &[Variable],
) -> Result<Vec<Variable>, AllocError>
    ensures { IfOk result (λ inner. map bound_view inner.items
        ≡ record { name = name.now; ty = ty } ∷ map bound_view variables.now) }
{
    let mut inner = Vec::new(alloc);
    push_variable(alloc, name, ty, &mut inner)?;
    for outer in variables {
        push_variable(alloc, &outer.name, outer.ty, &mut inner)?;
    }
    Ok(inner)
}

/// Adds a variable behind the others.
fn push_variable(
    alloc: Global,
    name: &Name,
    ty: Ty,
    variables: &mut Vec<Variable>,
) -> Result<(), AllocError>
    ensures { OnOk result (map bound_view variables.new.items
        ≡ map bound_view variables.old.items ++ record { name = name.now; ty = ty } ∷ []) }
{
    variables.push(Variable {
        name: Name::new(alloc, name.bytes())?,
        ty,
    })?;
    Ok(())
}

/// The names of the variables within one more bind.
pub(crate) fn named_within(
    alloc: Global,
    name: &Name,
    variables: &[Name],
) -> Result<Vec<Name>, AllocError>
    ensures { IfOk result (λ inner. inner.items ≡ name.now ∷ variables.now) }
{
    let mut inner = Vec::new(alloc);
    inner.push(Name::new(alloc, name.bytes())?)?;
    for outer in variables {
        inner.push(Name::new(alloc, outer.bytes())?)?;
    }
    Ok(inner)
}

/// Whether one of the variables has the name.
pub(crate) fn is_variable_name(variables: &[Name], name: &Name) -> bool
    ensures { result ≡ is_among variables.now name.now }
{
    for variable in variables {
        if name.bytes() == variable.bytes() {
            return true;
        }
    }
    false
}
