//! Types of formulas.
ghost use Rattle.std.specs.Prelude.{◌≡◌, ◌<◌, ◌∷◌, length, IfOk};
ghost use Rattle.formula_lang.specs.CommandView.{constant_view, formula_view};
ghost use Rattle.script_model.specs.Values.{type_of};
ghost use Rattle.formula_elab.specs.Types.{formula_ty, joined_ty, type_at};
ghost use Rattle.formula_elab.specs.Names.{EveryName};

use formula_lang::{Constant, Formula, Names};
use inc_value::Ty;
use std::alloc::{AllocError, Global};

/// The type of a formula whose names are declared, where the variables of the binds round it have these types, the
/// innermost first.
#[cycle(types)]
pub(crate) fn formula_type(
    alloc: Global,
    names: &Names,
    tys: &[Ty],
    formula: &Formula,
) -> Result<Ty, AllocError>
    requires names { EveryName (λ n. n < length names.now.declared) (length tys.now) (formula_view formula.now) }
    ensures { IfOk result (λ ty. ty ≡ formula_ty (type_at names.entry.now) tys.now (formula_view formula.now)) }
{
    match formula {
        Formula::Literal(value) => Ok(constant_type(value)),
        Formula::Name(position) => Ok(names.get(*position).ty),
        Formula::Bound(binds_between) => Ok(tys[*binds_between]),
        Formula::Apply { function, .. } => Ok(function.sig.gives()),
        Formula::Fold { function, .. } => Ok(function.sig.gives()),
        Formula::At(_) => Ok(Ty::Bool),
        Formula::Steps { first, .. } => Ok(constant_type(first)),
        Formula::Now => Ok(Ty::Int),
        Formula::If { yes, .. } => formula_type(alloc, names, tys, yes),
        Formula::Join(child) => Ok(joined_type(formula_type(alloc, names, tys, child)?)),
        Formula::Bind { left, body } => {
            let inner = within(alloc, formula_type(alloc, names, tys, left)?, tys)?;
            let ty = formula_type(alloc, names, &inner, body);
            drop(inner);
            ty
        }
    }
}

/// The types of the variables within one more bind, whose left is of the type.
pub(crate) fn within(alloc: Global, ty: Ty, tys: &[Ty]) -> Result<Vec<Ty>, AllocError>
    ensures { IfOk result (λ inner. inner.items ≡ ty ∷ tys.now) }
{
    let mut inner = Vec::new(alloc);
    inner.push(ty)?;
    inner.extend_from_slice(tys)?;
    Ok(inner)
}

/// The type of a constant.
fn constant_type(constant: &Constant) -> Ty
    ensures { result ≡ type_of (constant_view constant.now) }
{
    match constant {
        Constant::Int(_) => Ty::Int,
        Constant::Bool(_) => Ty::Bool,
        Constant::Text(_) => Ty::Text,
        Constant::Reference { base, .. } => Ty::Node(*base),
    }
}

/// What references of the type lead to.
pub(crate) fn joined_type(ty: Ty) -> Ty
    ensures { result ≡ joined_ty ty }
{
    match ty {
        Ty::Int => Ty::Int,
        Ty::Bool => Ty::Bool,
        Ty::Text => Ty::Text,
        Ty::Node(base) => base.ty(),
    }
}
