//! The arguments of a call, by their types.
ghost use Rattle.std.specs.Prelude.{◌≡◌, ◌∷◌, []};
ghost use Rattle.inc_value.specs.Value.{HaveTypes};
ghost use Rattle.inc_value.specs.declared.ty.Ty.TheVariants as ty;
ghost use Rattle.inc_value.specs.declared.value.Value.TheVariants as value;

use inc_value::{Text, Value};

/// The argument, which is an integer.
pub(crate) fn integer(args: &[Value]) -> i64
    requires { HaveTypes args.now (ty.Int ∷ []) }
    ensures { args.now ≡ value.Int result ∷ [] }
{
    match args {
        [Value::Int(a)] => *a,
        _ => unreachable!(),
    }
}

/// The arguments, which are two integers.
pub(crate) fn two_integers(args: &[Value]) -> (i64, i64)
    requires { HaveTypes args.now (ty.Int ∷ ty.Int ∷ []) }
    ensures { args.now ≡ value.Int result.0 ∷ value.Int result.1 ∷ [] }
{
    match args {
        [Value::Int(a), Value::Int(b)] => (*a, *b),
        _ => unreachable!(),
    }
}

/// The arguments, which are three integers.
pub(crate) fn three_integers(args: &[Value]) -> (i64, i64, i64)
    requires { HaveTypes args.now (ty.Int ∷ ty.Int ∷ ty.Int ∷ []) }
    ensures { args.now ≡ value.Int result.0 ∷ value.Int result.1 ∷ value.Int result.2 ∷ [] }
{
    match args {
        [Value::Int(a), Value::Int(b), Value::Int(c)] => (*a, *b, *c),
        _ => unreachable!(),
    }
}

/// The argument, which is a truth.
pub(crate) fn truth(args: &[Value]) -> bool
    requires { HaveTypes args.now (ty.Bool ∷ []) }
    ensures { args.now ≡ value.Bool result ∷ [] }
{
    match args {
        [Value::Bool(a)] => *a,
        _ => unreachable!(),
    }
}

/// The arguments, which are two truths.
pub(crate) fn two_truths(args: &[Value]) -> (bool, bool)
    requires { HaveTypes args.now (ty.Bool ∷ ty.Bool ∷ []) }
    ensures { args.now ≡ value.Bool result.0 ∷ value.Bool result.1 ∷ [] }
{
    match args {
        [Value::Bool(a), Value::Bool(b)] => (*a, *b),
        _ => unreachable!(),
    }
}

/// The arguments, which are a truth and two integers.
pub(crate) fn truth_and_integers(args: &[Value]) -> (bool, i64, i64)
    requires { HaveTypes args.now (ty.Bool ∷ ty.Int ∷ ty.Int ∷ []) }
    ensures { args.now ≡ value.Bool result.0 ∷ value.Int result.1 ∷ value.Int result.2 ∷ [] }
{
    match args {
        [Value::Bool(a), Value::Int(b), Value::Int(c)] => (*a, *b, *c),
        _ => unreachable!(),
    }
}

/// The argument, which is a text.
pub(crate) fn text(args: &[Value]) -> &Text
    requires { HaveTypes args.now (ty.Text ∷ []) }
    ensures { args.now ≡ value.Text result.now ∷ [] }
{
    match args {
        [Value::Text(a)] => a,
        _ => unreachable!(),
    }
}

/// The arguments, which are two texts.
pub(crate) fn two_texts(args: &[Value]) -> (&Text, &Text)
    requires { HaveTypes args.now (ty.Text ∷ ty.Text ∷ []) }
    ensures { args.now ≡ value.Text result.0.now ∷ value.Text result.1.now ∷ [] }
{
    match args {
        [Value::Text(a), Value::Text(b)] => (a, b),
        _ => unreachable!(),
    }
}
