//! The functions of the standard library, with their names, numbers, types and values.
ghost use Rattle.std.specs.Prelude.{◌≡◌, ◌≢◌, ◌==◌, ◌↔◌, IfOk, IsOk, IsTrue, Some, slice_get};
ghost use Rattle.std.specs.Str.{bytes_eq};
ghost use Rattle.std_library.specs.Functions as says;
ghost use Rattle.inc_value.specs.Value.{type_of, HaveTypes, IsProper};

use crate::arguments::{
    integer, text, three_integers, truth, truth_and_integers, two_integers, two_texts, two_truths,
};
use crate::operations::{joined, length, quotient, remainder, shown, sum};
use inc_value::{FnId, FnKind, FnRef, Sig, Ty, Value};
use std::alloc::{AllocError, Global};

/// A function of the standard library. Integers have 64 bits.
#[derive(Clone, Copy, PartialEq, Eq)]
pub enum Function {
    /// The sum of two integers, wrapping.
    Add,

    /// The first of two integers less the second, wrapping.
    Sub,

    /// The product of two integers, wrapping.
    Mul,

    /// The first of two integers divided by the second, cut toward 0; by 0 it is 0, and the least by -1 is the least.
    Div,

    /// What that division leaves, with the sign of the first; by 0 and by -1 it is 0.
    Rem,

    /// The negation of an integer, wrapping.
    Neg,

    /// The lesser of two integers.
    Min,

    /// The greater of two integers.
    Max,

    /// The lesser of the third of three integers and the greater of the first two.
    Clamp,

    /// The second of three where the first, a truth, is true, else the third.
    Pick,

    /// The sum of nine integers, wrapping.
    Sum9,

    /// Whether two integers are equal.
    Eq,

    /// Whether the first of two integers is less than the second.
    Lt,

    /// Whether the first of two integers is less than the second or equal to it.
    Le,

    /// Whether both of two truths are true.
    And,

    /// Whether one or both of two truths are true.
    Or,

    /// Whether a truth is false.
    Not,

    /// One text after the other, cut to the first 4,096 bytes.
    Cat,

    /// How many bytes a text has.
    Len,

    /// Whether two texts have equal bytes.
    Same,

    /// An integer in decimal, with `-` before a negative one.
    Show,

    /// Whether an integer is above 0.
    Pos,
}

impl Function {
    ghost use Rattle.std_library.specs.Functions.{name_of, number_of, sig_of, value_of, reference_of, function_named, function_numbered, named, known};

    /// The functions, each once, by number.
    const ALL: [Function; 22] = [
        Function::Add,
        Function::Sub,
        Function::Mul,
        Function::Div,
        Function::Rem,
        Function::Neg,
        Function::Min,
        Function::Max,
        Function::Clamp,
        Function::Pick,
        Function::Sum9,
        Function::Eq,
        Function::Lt,
        Function::Le,
        Function::And,
        Function::Or,
        Function::Not,
        Function::Cat,
        Function::Len,
        Function::Same,
        Function::Show,
        Function::Pos,
    ];

    /// The name, as scripts write it. No other function has it.
    pub fn name(self) -> &'static [u8]
        ensures value { result.now ≡ name_of self }
        ensures found { function_named result.now ≡ Some self }
    {
        match self {
            Function::Add => b"add",
            Function::Sub => b"sub",
            Function::Mul => b"mul",
            Function::Div => b"div",
            Function::Rem => b"rem",
            Function::Neg => b"neg",
            Function::Min => b"min",
            Function::Max => b"max",
            Function::Clamp => b"clamp",
            Function::Pick => b"pick",
            Function::Sum9 => b"sum9",
            Function::Eq => b"eq",
            Function::Lt => b"lt",
            Function::Le => b"le",
            Function::And => b"and",
            Function::Or => b"or",
            Function::Not => b"not",
            Function::Cat => b"cat",
            Function::Len => b"len",
            Function::Same => b"same",
            Function::Show => b"show",
            Function::Pos => b"pos",
        }
    }

    /// The number, as references to functions have it. No other function has it.
    pub fn number(self) -> u64
        ensures value { result ≡ number_of self }
        ensures found { function_numbered result ≡ Some self }
    {
        match self {
            Function::Add => 1,
            Function::Sub => 2,
            Function::Mul => 3,
            Function::Div => 4,
            Function::Rem => 5,
            Function::Neg => 6,
            Function::Min => 7,
            Function::Max => 8,
            Function::Clamp => 9,
            Function::Pick => 10,
            Function::Sum9 => 11,
            Function::Eq => 12,
            Function::Lt => 13,
            Function::Le => 14,
            Function::And => 15,
            Function::Or => 16,
            Function::Not => 17,
            Function::Cat => 18,
            Function::Len => 19,
            Function::Same => 20,
            Function::Show => 21,
            Function::Pos => 22,
        }
    }

    /// The types that the function takes, and the one that it gives.
    pub fn sig(self) -> Sig
        ensures { result ≡ sig_of self }
    {
        match self {
            Function::Add
            | Function::Sub
            | Function::Mul
            | Function::Div
            | Function::Rem
            | Function::Min
            | Function::Max => Sig::new(&[Ty::Int, Ty::Int], Ty::Int),
            Function::Neg => Sig::new(&[Ty::Int], Ty::Int),
            Function::Clamp => Sig::new(&[Ty::Int, Ty::Int, Ty::Int], Ty::Int),
            Function::Pick => Sig::new(&[Ty::Bool, Ty::Int, Ty::Int], Ty::Int),
            Function::Sum9 => Sig::new(&[Ty::Int; 9], Ty::Int),
            Function::Eq | Function::Lt | Function::Le => Sig::new(&[Ty::Int, Ty::Int], Ty::Bool),
            Function::And | Function::Or => Sig::new(&[Ty::Bool, Ty::Bool], Ty::Bool),
            Function::Not => Sig::new(&[Ty::Bool], Ty::Bool),
            Function::Cat => Sig::new(&[Ty::Text, Ty::Text], Ty::Text),
            Function::Len => Sig::new(&[Ty::Text], Ty::Int),
            Function::Same => Sig::new(&[Ty::Text, Ty::Text], Ty::Bool),
            Function::Show => Sig::new(&[Ty::Int], Ty::Text),
            Function::Pos => Sig::new(&[Ty::Int], Ty::Bool),
        }
    }

    /// The function as nodes refer to it. Its name leads to this reference, and the library knows it.
    pub fn reference(self) -> FnRef
        ensures value { result ≡ reference_of self }
        ensures named { named (name_of self) ≡ Some result }
        ensures known { IsTrue (known result) }
    {
        FnRef {
            id: FnId {
                kind: FnKind::Map,
                number: self.number(),
            },
            sig: self.sig(),
        }
    }

    /// Whether the reference is exactly this function's, its types too.
    pub fn has_reference(self, f: FnRef) -> bool
        ensures { IsTrue result ↔ (f ≡ reference_of self) }
    {
        is_same(f, self.reference())
    }

    /// The function that has the name.
    pub fn named(name: &[u8]) -> Option<Function>
        ensures { result ≡ function_named name.now }
    {
        first_named(&Function::ALL, name)
    }

    /// The function that has the number.
    pub fn numbered(number: u64) -> Option<Function>
        ensures { result ≡ function_numbered number }
    {
        let place = number.checked_sub(1)?;
        at_place(&Function::ALL, place as usize)
    }

    /// Whether the function has the name.
    fn has_name(self, name: &[u8]) -> bool
        ensures { result ≡ bytes_eq (name_of self) name.now }
    {
        self.name() == name
    }

    /// What the function gives for the arguments. Only a text needs memory.
    ///
    /// # Errors
    ///
    /// [`AllocError`] where there is no memory for the value.
    pub fn apply(self, alloc: Global, args: &[Value]) -> Result<Value, AllocError>
        requires fit { HaveTypes args.now (sig_of self).takes }
        ensures value { IfOk result (λ v. v ≡ value_of self args.now) }
        ensures typed { IfOk result (λ v. type_of v ≡ (sig_of self).gives) }
        ensures proper { IfOk result IsProper }
        ensures scalar { (sig_of self).gives ≢ Ty.Text → IsOk result }
    {
        match self {
            Function::Add
            | Function::Sub
            | Function::Mul
            | Function::Div
            | Function::Rem
            | Function::Neg
            | Function::Min
            | Function::Max
            | Function::Clamp
            | Function::Pick
            | Function::Sum9
            | Function::Len => Ok(Value::Int(self.integer_given(args))),
            Function::Eq
            | Function::Lt
            | Function::Le
            | Function::And
            | Function::Or
            | Function::Not
            | Function::Same
            | Function::Pos => Ok(Value::Bool(self.truth_given(args))),
            Function::Cat => {
                let (a, b) = two_texts(args);
                Ok(Value::Text(joined(alloc, a, b)?))
            }
            Function::Show => {
                let a = integer(args);
                Ok(Value::Text(shown(alloc, a)?))
            }
        }
    }

    /// The integer that the function gives for the arguments.
    fn integer_given(self, args: &[Value]) -> i64
        requires fit { HaveTypes args.now (sig_of self).takes }
        requires gives { (sig_of self).gives ≡ Ty.Int }
        ensures { value_of self args.now ≡ Value.Int result }
    {
        match self {
            Function::Add => {
                let (a, b) = two_integers(args);
                a.wrapping_add(b)
            }
            Function::Sub => {
                let (a, b) = two_integers(args);
                a.wrapping_sub(b)
            }
            Function::Mul => {
                let (a, b) = two_integers(args);
                a.wrapping_mul(b)
            }
            Function::Div => {
                let (a, b) = two_integers(args);
                quotient(a, b)
            }
            Function::Rem => {
                let (a, b) = two_integers(args);
                remainder(a, b)
            }
            Function::Neg => integer(args).wrapping_neg(),
            Function::Min => {
                let (a, b) = two_integers(args);
                a.min(b)
            }
            Function::Max => {
                let (a, b) = two_integers(args);
                a.max(b)
            }
            Function::Clamp => {
                let (a, b, c) = three_integers(args);
                a.max(b).min(c)
            }
            Function::Pick => {
                let (first, a, b) = truth_and_integers(args);
                if first { a } else { b }
            }
            Function::Sum9 => sum(args),
            Function::Len => length(text(args)),
            _ => unreachable!(),
        }
    }

    /// The truth that the function gives for the arguments.
    fn truth_given(self, args: &[Value]) -> bool
        requires fit { HaveTypes args.now (sig_of self).takes }
        requires gives { (sig_of self).gives ≡ Ty.Bool }
        ensures { value_of self args.now ≡ Value.Bool result }
    {
        match self {
            Function::Eq => {
                let (a, b) = two_integers(args);
                a == b
            }
            Function::Lt => {
                let (a, b) = two_integers(args);
                a < b
            }
            Function::Le => {
                let (a, b) = two_integers(args);
                a <= b
            }
            Function::And => {
                let (a, b) = two_truths(args);
                a & b
            }
            Function::Or => {
                let (a, b) = two_truths(args);
                a | b
            }
            Function::Not => !truth(args),
            Function::Same => {
                let (a, b) = two_texts(args);
                a.same(b)
            }
            Function::Pos => integer(args) > 0,
            _ => unreachable!(),
        }
    }
}

/// The first of the functions that has the name.
fn first_named(functions: &[Function], name: &[u8]) -> Option<Function>
    ensures { result ≡ says.first_named functions.now name.now }
{
    for function in functions {
        if function.has_name(name) {
            return Some(*function);
        }
    }
    None
}

/// The function at the place.
fn at_place(functions: &[Function], place: usize) -> Option<Function>
    ensures { result ≡ slice_get functions.now place }
{
    functions.get(place).copied()
}

/// Whether both references are of one function, their types too.
fn is_same(f: FnRef, g: FnRef) -> bool
    ensures { IsTrue result ↔ (f ≡ g) }
{
    is_same_id(f.id, g.id) && has_same_types(f.sig, g.sig)
}

/// Whether both names are of one function.
fn is_same_id(f: FnId, g: FnId) -> bool
    ensures { IsTrue result ↔ (f ≡ g) }
{
    f == g
}

/// Whether both take the same types and give the same one.
fn has_same_types(s: Sig, t: Sig) -> bool
    ensures { IsTrue result ↔ (s ≡ t) }
{
    are_same(s.takes(), t.takes()) && s.gives() == t.gives()
}

/// Whether the types are the same, one for one.
pub(crate) fn are_same(left: &[Ty], right: &[Ty]) -> bool
    ensures { IsTrue result ↔ (left.now ≡ right.now) }
{
    left == right
}
