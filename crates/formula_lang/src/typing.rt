//! Names, functions and types of formulas.
ghost use Rattle.std.specs.Prelude.{◌≡◌, ◌<◌, ◌++◌, ◌∷◌, [], length, map, option_map, Some, IfOk, IfSome, OnOk};
ghost use Rattle.std.specs.List.{list_any};
ghost use Rattle.script_model.specs.Check.{Declare, applied as applied_to, are_all, branched, element_of, find_declared, folded, frozen_when, is_declared, join_of, literal_of_type, steps_of_type, typed, typed_as, typed_each, typed_literal, typed_name};
ghost use Rattle.formula_lang.specs.Within.{functions_within, functions_within_all};
ghost use Rattle.script_model.specs.Literals.{Referred};
ghost use Rattle.script_model.specs.Parsing.{trees_of};
ghost use Rattle.script_model.specs.Formula.{At, Bind, Computed, Literal as Held, Now, Steps, meanings_of, nothing_kept};
ghost use Rattle.script_model.specs.Grammar.{Call, Fold, Join};
ghost use Rattle.inc_value.specs.Choice.{and_then};
ghost use Rattle.inc_value.specs.Ty.{same_ty, same_types};
ghost use Rattle.formula_lang.specs.CommandView.{command_view, constant_view, formula_view, timed_view};
ghost use Rattle.formula_lang.specs.NamesView.{declared_view};
ghost use Rattle.formula_lang.specs.Rows.{lacks};
ghost use Rattle.line_parser.specs.TreeView.{tree_view};
ghost use Rattle.line_parser.specs.View.{literal_view, timed_view as timed_literal_view};
ghost use Rattle.formula_lang.specs.Typing.{bound_view, named_formula, part_view, typed_view, typed_each_view};

use crate::command::{Command, Constant, Declaration, Formula, TimedConstant};
use crate::names::{Declared, Names};
use crate::scope::{Variable, variable_named, within};
use inc_value::{FnRef, Ty};
use line_parser::{Literal, Name, TimedLiteral, Tree};
use line_times::{Nanoseconds, nanoseconds_of};
use node_arena::Library;
use std::alloc::{AllocError, Global};

/// A formula with its type.
pub(crate) struct TypedFormula {
    formula: Formula,
    ty: Ty,
}

// (written out: whoever drops one proves one call, and no drop of its parts)
impl Drop for TypedFormula {
    fn drop(self) {
        let TypedFormula { formula, ty: _ } = self;
        drop(formula);
    }
}

impl TypedFormula {
    /// The declaration of a name for the formula.
    pub(crate) fn declared(self, alloc: Global, name: Name) -> Result<Option<Command>, AllocError>
        ensures { IfOk result (λ c. option_map command_view c ≡ Some (Declare name self.ty (Computed (formula_view self.formula) nothing_kept))) }
    {
        let TypedFormula { formula, ty } = self;
        Declaration::Computed(formula).named(alloc, name, ty)
    }

    /// The declaration of a name for the first value of the formula on which the predicate is true, if the predicate takes
    /// the formula's type alone and gives a truth value.
    pub(crate) fn frozen(
        self,
        alloc: Global,
        name: &Name,
        predicate: FnRef,
    ) -> Result<Option<Command>, AllocError>
        ensures { IfOk result (λ c. option_map command_view c
            ≡ option_map (λ t. Declare name.now t.ty t.body) (frozen_when (typed_view self) predicate)) }
    {
        let TypedFormula { formula, ty } = self;
        if !is_same_type(predicate.sig.gives(), Ty::Bool) || !takes_types(&predicate, &[ty]) {
            drop(formula);
            return Ok(None);
        }
        match Name::new(alloc, name.bytes()) {
            Ok(name) => Declaration::Frozen {
                child: formula,
                predicate,
            }
            .named(alloc, name, ty),
            Err(fault) => {
                drop(formula);
                Err(fault)
            }
        }
    }

    /// The formula with its type, put into a box.
    fn boxed(self, alloc: Global) -> Result<Option<TypedPart>, AllocError>
        ensures { IfOk result (λ part. option_map part_view part ≡ Some (typed_view self)) }
    {
        let TypedFormula { formula, ty } = self;
        Ok(Some(TypedPart {
            formula: Box::new(alloc, formula)?,
            ty,
        }))
    }

    /// Puts the formula behind others.
    fn behind(self, others: &mut TypedFormulas) -> Result<(), AllocError>
        ensures formulas { OnOk result (others.new.formulas.items ≡ others.old.formulas.items ++ self.formula ∷ []) }
        ensures tys { OnOk result (others.new.tys.items ≡ others.old.tys.items ++ self.ty ∷ []) }
    {
        let TypedFormula { formula, ty } = self;
        others.formulas.push(formula)?;
        others.tys.push(ty)?;
        Ok(())
    }
}

/// A formula in a box, with its type: what the formulas round it hold.
#[derive(Drop)]
struct TypedPart {
    formula: Box<Formula>,
    ty: Ty,
}

impl TypedPart {
    /// One of two sides by a test, if all are there, the test is a truth value and the sides have one type.
    #[inline(never)]
    fn branched(
        test: Option<TypedPart>,
        then_side: Option<TypedPart>,
        else_side: Option<TypedPart>,
    ) -> Option<TypedFormula>
        ensures { option_map typed_view result ≡ and_then (option_map part_view test) (λ t.
            and_then (option_map part_view then_side) (λ x. and_then (option_map part_view else_side) (λ y. branched t x y))) }
    {
        let (test, then_side, else_side) = (test?, then_side?, else_side?);
        if !is_same_type(test.ty, Ty::Bool) || !is_same_type(then_side.ty, else_side.ty) {
            return None;
        }
        Some(TypedFormula {
            formula: Formula::If {
                test: test.formula,
                yes: then_side.formula,
                no: else_side.formula,
            },
            ty: then_side.ty,
        })
    }

    /// What a declaration is worth to which the formula refers, if that has a type of references.
    #[inline(never)]
    fn joined(self) -> Option<TypedFormula>
        ensures { option_map typed_view result ≡ join_of (part_view self) self.ty }
    {
        match self.ty {
            Ty::Node(base) => Some(TypedFormula {
                formula: Formula::Join(self.formula),
                ty: base.ty(),
            }),
            Ty::Int | Ty::Bool | Ty::Text => None,
        }
    }

    /// The body, if it is there, with this left for its variable.
    #[inline(never)]
    fn bound(self, body: Option<TypedPart>) -> Option<TypedFormula>
        ensures { option_map typed_view result
            ≡ and_then (option_map part_view body) (λ b. typed_as (Bind (part_view self).formula b.formula) b.ty) }
    {
        let body = body?;
        Some(TypedFormula {
            formula: Formula::Bind {
                left: self.formula,
                body: body.formula,
            },
            ty: body.ty,
        })
    }
}

/// Formulas with their types.
struct TypedFormulas {
    formulas: Vec<Formula>,
    tys: Vec<Ty>,
}

// (written out: whoever drops one proves one call, and no drop of its parts)
impl Drop for TypedFormulas {
    fn drop(self) {
        let TypedFormulas { formulas, tys } = self;
        drop(formulas);
        drop(tys);
    }
}

impl TypedFormulas {
    /// No formulas.
    fn new(alloc: Global) -> TypedFormulas
        ensures formulas { result.formulas.items ≡ [] }
        ensures tys { result.tys.items ≡ [] }
    {
        TypedFormulas {
            formulas: Vec::new(alloc),
            tys: Vec::new(alloc),
        }
    }

    /// The function of these arguments, if their types are those that it takes.
    #[inline(never)]
    fn applied(self, function: FnRef) -> Option<TypedFormula>
        ensures { option_map typed_view result ≡ applied_to function (typed_each_view self) }
    {
        let TypedFormulas { formulas, tys } = self;
        if !takes_types(&function, &tys) {
            return None;
        }
        Some(TypedFormula {
            formula: Formula::Apply {
                function,
                arguments: formulas,
            },
            ty: function.sig.gives(),
        })
    }

    /// The fold of these elements from the first value, if the function takes what it gives and an element, the first value has the
    /// type that it gives, and each element that which it takes.
    #[inline(never)]
    fn folded(
        self,
        alloc: Global,
        names: &Names,
        function: FnRef,
        first: &Literal,
    ) -> Result<Option<TypedFormula>, AllocError>
        ensures { IfOk result (λ t. option_map typed_view t
            ≡ folded names.entry.now function (literal_view first.now) (typed_each_view self)) }
    {
        let TypedFormulas { formulas, tys } = self;
        let Some(element) = element_of(&function) else {
            return Ok(None);
        };
        let gives = function.sig.gives();
        if !are_all(element, &tys) {
            return Ok(None);
        }
        match literal_of_type(alloc, names, gives, first)? {
            Some(first) => Ok(Some(TypedFormula {
                formula: Formula::Fold {
                    function,
                    first,
                    elements: formulas,
                },
                ty: gives,
            })),
            None => Ok(None),
        }
    }
}

/// The declaration of a name.
pub(crate) fn declared_as<'a>(names: &'a Names, name: &Name) -> Option<&'a Declared>
    ensures found { option_map (λ d. declared_view d.now) result ≡ find_declared names.entry.now name.now }
    ensures earlier { IfSome result (λ d. d.now.target < length names.entry.now.declared) }
{
    let position = names.find(name.bytes())?;
    Some(names.get(position))
}

/// Whether the name is declared.
pub(crate) fn is_declared(names: &Names, name: &Name) -> bool
    ensures { result ≡ is_declared names.entry.now name.now }
{
    declared_as(names, name).is_some()
}

/// Whether the library lacks a function of the formula.
#[cycle(functions_in)]
pub(crate) fn has_unknown_function<L: Library>(library: &L, tree: &Tree) -> bool
    ensures { result ≡ list_any (lacks (L.named library.now)) (functions_within (tree_view tree.now)) }
{
    match tree {
        Tree::Literal(_) | Tree::Name(_) => false,
        Tree::Call {
            function,
            arguments,
        } => library.find(function.bytes()).is_none() | have_unknown_function(library, arguments),
        Tree::Fold {
            function,
            elements,
            ..
        } => library.find(function.bytes()).is_none() | have_unknown_function(library, elements),
        Tree::If {
            test,
            then_side,
            else_side,
        } => {
            has_unknown_function(library, test)
                | has_unknown_function(library, then_side)
                | has_unknown_function(library, else_side)
        }
        Tree::Join { child } => has_unknown_function(library, child),
        Tree::Bind { left, body, .. } => {
            has_unknown_function(library, left) | has_unknown_function(library, body)
        }
        Tree::Freeze {
            child,
            predicate,
            around,
        } => {
            let outside = library.find(predicate.bytes()).is_none()
                | lacks_predicate(library, around);
            outside | has_unknown_function(library, child)
        }
        Tree::At(_) | Tree::Now | Tree::Steps { .. } | Tree::After(_) | Tree::Every(_) => false,
    }
}

/// Whether the library lacks one of the predicates of freezes round another.
fn lacks_predicate<L: Library>(library: &L, around: &[Name]) -> bool
    ensures { result ≡ list_any (lacks (L.named library.now)) around.now }
{
    for predicate in around {
        if library.find(predicate.bytes()).is_none() {
            return true;
        }
    }
    false
}

/// Whether the library lacks a function of the formulas.
#[cycle(functions_in)]
fn have_unknown_function<L: Library>(library: &L, trees: &[Tree]) -> bool
    ensures { result ≡ list_any (lacks (L.named library.now)) (functions_within_all (trees_of (map tree_view trees.now))) }
{
    for tree in trees {
        if has_unknown_function(library, tree) {
            return true;
        }
    }
    false
}

/// A formula within binds of these variables, with its type, unless a name or a function is unknown or a type does not fit.
#[cycle(formula)]
#[inline(never)]
pub(crate) fn typed<L: Library>(
    alloc: Global,
    names: &Names,
    library: &L,
    variables: &[Variable],
    tree: &Tree,
) -> Result<Option<TypedFormula>, AllocError>
    ensures { IfOk result (λ t. option_map typed_view t
        ≡ typed (meanings_of (L.named library.now) (L.value library.now)) names.entry.now (map bound_view variables.now)
        (tree_view tree.now)) }
{
    match tree {
        Tree::Literal(literal) => typed_literal(alloc, names, literal),
        Tree::Name(name) => Ok(typed_name(names, variables, name)),
        Tree::Call {
            function,
            arguments,
        } => typed_call(alloc, names, library, variables, function, arguments),
        Tree::Fold {
            function,
            first,
            elements,
        } => typed_fold(alloc, names, library, variables, function, first, elements),
        Tree::If {
            test,
            then_side,
            else_side,
        } => {
            let test = typed_part(alloc, names, library, variables, test)?;
            let then_side = typed_part(alloc, names, library, variables, then_side)?;
            let else_side = typed_part(alloc, names, library, variables, else_side)?;
            Ok(TypedPart::branched(test, then_side, else_side))
        }
        Tree::Join { child } => typed_join(alloc, names, library, variables, child),
        Tree::Bind {
            variable,
            left,
            body,
        } => match typed_part(alloc, names, library, variables, left) {
            Ok(Some(left)) => {
                match typed_within(alloc, names, library, variables, variable, left.ty, body) {
                    Ok(body) => Ok(left.bound(body)),
                    Err(fault) => {
                        drop(left);
                        Err(fault)
                    }
                }
            }
            Ok(None) => Ok(None),
            Err(fault) => Err(fault),
        },
        Tree::At(time) => Ok(Some(at(nanoseconds_of(*time)))),
        Tree::Now => Ok(Some(now())),
        Tree::Steps { first, steps } => typed_steps(alloc, names, first, steps),
        // As the whole of a declared formula they have a type.
        Tree::Freeze { .. } => Ok(None),
        Tree::After(_) | Tree::Every(_) => Ok(None),
    }
}

/// A function of arguments, with its type, unless it has none.
#[cycle(formula)]
#[inline(never)]
fn typed_call<L: Library>(
    alloc: Global,
    names: &Names,
    library: &L,
    variables: &[Variable],
    function: &Name,
    arguments: &[Tree],
) -> Result<Option<TypedFormula>, AllocError>
    ensures { IfOk result (λ t. option_map typed_view t
        ≡ typed (meanings_of (L.named library.now) (L.value library.now)) names.entry.now (map bound_view variables.now)
        (Call function.now (trees_of (map tree_view arguments.now)))) }
{
    let Some(function) = library.find(function.bytes()) else {
        return Ok(None);
    };
    match typed_each(alloc, names, library, variables, arguments) {
        Ok(Some(arguments)) => Ok(arguments.applied(function)),
        Ok(None) => Ok(None),
        Err(fault) => Err(fault),
    }
}

/// A fold of elements, with its type, unless it has none.
#[cycle(formula)]
#[inline(never)]
fn typed_fold<L: Library>(
    alloc: Global,
    names: &Names,
    library: &L,
    variables: &[Variable],
    function: &Name,
    first: &Literal,
    elements: &[Tree],
) -> Result<Option<TypedFormula>, AllocError>
    ensures { IfOk result (λ t. option_map typed_view t
        ≡ typed (meanings_of (L.named library.now) (L.value library.now)) names.entry.now (map bound_view variables.now)
        (Fold function.now (literal_view first.now) (trees_of (map tree_view elements.now)))) }
{
    let Some(function) = library.find(function.bytes()) else {
        return Ok(None);
    };
    match typed_each(alloc, names, library, variables, elements) {
        Ok(Some(elements)) => elements.folded(alloc, names, function, first),
        Ok(None) => Ok(None),
        Err(fault) => Err(fault),
    }
}

/// What a formula refers to, with its type, unless it has none.
#[cycle(formula)]
#[inline(never)]
fn typed_join<L: Library>(
    alloc: Global,
    names: &Names,
    library: &L,
    variables: &[Variable],
    child: &Tree,
) -> Result<Option<TypedFormula>, AllocError>
    ensures { IfOk result (λ t. option_map typed_view t
        ≡ typed (meanings_of (L.named library.now) (L.value library.now)) names.entry.now (map bound_view variables.now)
        (Join (tree_view child.now))) }
{
    match typed_part(alloc, names, library, variables, child) {
        Ok(Some(child)) => Ok(child.joined()),
        Ok(None) => Ok(None),
        Err(fault) => Err(fault),
    }
}

/// The body of a bind within the others, in a box, with its type, unless it has none.
#[cycle(formula)]
#[inline(never)]
fn typed_within<L: Library>(
    alloc: Global,
    names: &Names,
    library: &L,
    variables: &[Variable],
    variable: &Name,
    ty: Ty,
    body: &Tree,
) -> Result<Option<TypedPart>, AllocError>
    ensures { IfOk result (λ part. option_map part_view part
        ≡ typed (meanings_of (L.named library.now) (L.value library.now)) names.entry.now
        (record { name = variable.now; ty = ty } ∷ map bound_view variables.now) (tree_view body.now)) }
{
    match within(alloc, variable, ty, variables) {
        Ok(variables) => {
            let body = typed_part(alloc, names, library, &variables, body);
            drop(variables);
            body
        }
        Err(fault) => Err(fault),
    }
}

/// A formula in a box, with its type, unless it has none.
#[cycle(formula)]
#[inline(never)]
fn typed_part<L: Library>(
    alloc: Global,
    names: &Names,
    library: &L,
    variables: &[Variable],
    tree: &Tree,
) -> Result<Option<TypedPart>, AllocError>
    ensures { IfOk result (λ part. option_map part_view part
        ≡ typed (meanings_of (L.named library.now) (L.value library.now)) names.entry.now (map bound_view variables.now)
        (tree_view tree.now)) }
{
    match typed(alloc, names, library, variables, tree) {
        Ok(Some(typed)) => typed.boxed(alloc),
        Ok(None) => Ok(None),
        Err(fault) => Err(fault),
    }
}

/// The formulas with their types, unless one of them has none.
#[cycle(formula)]
#[inline(never)]
fn typed_each<L: Library>(
    alloc: Global,
    names: &Names,
    library: &L,
    variables: &[Variable],
    trees: &[Tree],
) -> Result<Option<TypedFormulas>, AllocError>
    ensures { IfOk result (λ t. option_map typed_each_view t
        ≡ typed_each (meanings_of (L.named library.now) (L.value library.now)) names.entry.now (map bound_view variables.now)
        (trees_of (map tree_view trees.now))) }
{
    let mut formulas = TypedFormulas::new(alloc);
    for tree in trees {
        match typed(alloc, names, library, variables, tree) {
            Ok(Some(formula)) => formula.behind(&mut formulas)?,
            Ok(None) => {
                drop(formulas);
                return Ok(None);
            }
            Err(fault) => {
                drop(formulas);
                return Err(fault);
            }
        }
    }
    Ok(Some(formulas))
}

/// A literal as a formula, unless it refers to nothing of a base type.
#[inline(never)]
fn typed_literal(
    alloc: Global,
    names: &Names,
    literal: &Literal,
) -> Result<Option<TypedFormula>, AllocError>
    ensures { IfOk result (λ t. option_map typed_view t
        ≡ and_then (typed_literal names.entry.now (literal_view literal.now)) (λ v. typed_as (Held v.value) v.ty)) }
{
    let Some(ty) = type_of_literal(names, literal) else {
        return Ok(None);
    };
    match constant_of_literal(alloc, names, literal)? {
        Some(constant) => Ok(Some(TypedFormula {
            formula: Formula::Literal(constant),
            ty,
        })),
        None => Ok(None),
    }
}

/// A name as a formula: the innermost variable of the name, or what is declared.
#[inline(never)]
fn typed_name(names: &Names, variables: &[Variable], name: &Name) -> Option<TypedFormula>
    ensures { option_map typed_view result ≡ typed_name names.entry.now name.now 0 (map bound_view variables.now) }
{
    match variable_named(variables, name) {
        Some((binds_between, ty)) => Some(TypedFormula {
            formula: Formula::Bound(binds_between),
            ty,
        }),
        None => typed_declared(names, name),
    }
}

/// A declared name as a formula.
fn typed_declared(names: &Names, name: &Name) -> Option<TypedFormula>
    ensures { option_map typed_view result ≡ named_formula (find_declared names.entry.now name.now) }
{
    let declared = declared_as(names, name)?;
    Some(TypedFormula {
        formula: Formula::Name(declared.target),
        ty: declared.ty,
    })
}

/// Whether the clock has come to the time.
fn at(time: Nanoseconds) -> TypedFormula
    ensures { typed_view result ≡ record { formula = At time; ty = Ty.Bool } }
{
    TypedFormula {
        formula: Formula::At(time),
        ty: Ty::Bool,
    }
}

/// The clock.
fn now() -> TypedFormula
    ensures { typed_view result ≡ record { formula = Now; ty = Ty.Int } }
{
    TypedFormula {
        formula: Formula::Now,
        ty: Ty::Int,
    }
}

/// The steps from the first value on, unless a value is of another type than the first.
#[inline(never)]
fn typed_steps(
    alloc: Global,
    names: &Names,
    first: &Literal,
    steps: &[TimedLiteral],
) -> Result<Option<TypedFormula>, AllocError>
    ensures { IfOk result (λ t. option_map typed_view t
        ≡ and_then (typed_literal names.entry.now (literal_view first.now)) (λ v.
        and_then (steps_of_type names.entry.now v.ty (map timed_literal_view steps.now)) (λ rest. typed_as (Steps v.value rest) v.ty))) }
{
    let Some(ty) = type_of_literal(names, first) else {
        return Ok(None);
    };
    match steps_of_type(alloc, names, ty, steps) {
        Ok(Some(steps)) => match constant_of_literal(alloc, names, first) {
            Ok(Some(first)) => Ok(Some(TypedFormula {
                formula: Formula::Steps { first, steps },
                ty,
            })),
            Ok(None) => {
                drop(steps);
                Ok(None)
            }
            Err(fault) => {
                drop(steps);
                Err(fault)
            }
        },
        Ok(None) => Ok(None),
        Err(fault) => Err(fault),
    }
}

/// The constants of the steps, unless one has another type.
fn steps_of_type(
    alloc: Global,
    names: &Names,
    ty: Ty,
    steps: &[TimedLiteral],
) -> Result<Option<Vec<TimedConstant>>, AllocError>
    ensures { IfOk result (λ found. option_map (λ constants. map timed_view constants.items) found
        ≡ steps_of_type names.entry.now ty (map timed_literal_view steps.now)) }
{
    let mut constants = Vec::new(alloc);
    for step in steps {
        match literal_of_type(alloc, names, ty, &step.literal) {
            Ok(Some(value)) => {
                let time = nanoseconds_of(step.time);
                constants.push(TimedConstant { time, value })?;
            }
            Ok(None) => {
                drop(constants);
                return Ok(None);
            }
            Err(fault) => {
                drop(constants);
                return Err(fault);
            }
        }
    }
    Ok(Some(constants))
}

/// The type of the elements that the function folds; none where it doesn't take what it gives and an element.
pub(crate) fn element_of(function: &FnRef) -> Option<Ty>
    ensures { result ≡ element_of function.now function.now.sig.takes }
{
    match function.sig.takes() {
        [gathered, element] if is_same_type(*gathered, function.sig.gives()) => Some(*element),
        _ => None,
    }
}

/// Whether all of the types are this one.
fn are_all(ty: Ty, tys: &[Ty]) -> bool
    ensures { result ≡ are_all ty tys.now }
{
    for other in tys {
        if !is_same_type(ty, *other) {
            return false;
        }
    }
    true
}

/// Whether the function takes values of these types.
fn takes_types(function: &FnRef, tys: &[Ty]) -> bool
    ensures { result ≡ same_types function.now.sig.takes tys.now }
{
    function.sig.takes() == tys
}

/// Whether both types are the same.
pub(crate) fn is_same_type(left: Ty, right: Ty) -> bool
    ensures { result ≡ same_ty left right }
{
    left == right
}

/// The type of a literal, unless it refers to nothing of a base type.
fn type_of_literal(names: &Names, literal: &Literal) -> Option<Ty>
    ensures { result ≡ option_map (λ v. v.ty) (typed_literal names.entry.now (literal_view literal.now)) }
{
    match literal {
        Literal::Integer(_) => Some(Ty::Int),
        Literal::Bool(_) => Some(Ty::Bool),
        Literal::Text(_) => Some(Ty::Text),
        Literal::Reference(name) => Some(Ty::Node(declared_as(names, name)?.ty.base()?)),
    }
}

/// The constant that a literal stands for, unless it refers to nothing of a base type.
fn constant_of_literal(
    alloc: Global,
    names: &Names,
    literal: &Literal,
) -> Result<Option<Constant>, AllocError>
    ensures { IfOk result (λ c. option_map constant_view c ≡ option_map (λ v. v.value) (typed_literal names.entry.now (literal_view literal.now))) }
{
    match literal {
        Literal::Integer(value) => Ok(Some(Constant::Int(*value))),
        Literal::Bool(value) => Ok(Some(Constant::Bool(*value))),
        Literal::Text(text) => Ok(Some(Constant::Text(text.copy(alloc)?))),
        Literal::Reference(name) => Ok(reference_to(names, name)),
    }
}

/// The reference to what a name stands for, unless that has no base type.
fn reference_to(names: &Names, name: &Name) -> Option<Constant>
    ensures { option_map constant_view result ≡ option_map (λ v. v.value) (typed_literal names.entry.now (Referred name.now)) }
{
    let declared = declared_as(names, name)?;
    Some(Constant::Reference {
        target: declared.target,
        base: declared.ty.base()?,
    })
}

/// The constant that a literal stands for, if it has the type.
pub(crate) fn literal_of_type(
    alloc: Global,
    names: &Names,
    ty: Ty,
    literal: &Literal,
) -> Result<Option<Constant>, AllocError>
    ensures { IfOk result (λ c. option_map constant_view c ≡ literal_of_type names.entry.now ty (literal_view literal.now)) }
{
    match type_of_literal(names, literal) {
        Some(found) if is_same_type(found, ty) => constant_of_literal(alloc, names, literal),
        _ => Ok(None),
    }
}
