//! Functions handed over in boxes, kept, and built with in an arena.

use crate::boxed::keep_map;
use closure_examples::{Named, Neg, NegOfLeft, Sum, Table, builds_as_listed, held, kept};
use closures::{Closures, NewFn};
use inc_value::Value;
use node_arena::{Functions, MapFn, MoreFault, RhsFn};
use std::test::Fail;

/// Keeps all of the maps.
fn keep_all(functions: &mut Closures, boxes: &mut Vec<Box<dyn MapFn>>) -> bool
    requires { ⟦<Closures as Functions>⟧.is_sound functions.old }
    ensures { ⟦<Closures as Functions>⟧.is_sound functions.new }
{
    while let Some(function) = boxes.pop() {
        if keep_map(functions, function).is_none() {
            return false;
        }
    }
    true
}

#[test]
fn hands_back_one_too_many(rt: HostRuntime) -> Result<(), Fail> {
    let alloc = rt.alloc();
    let mut functions = Closures::new(alloc);
    let mut boxes: Vec<Box<dyn MapFn>> = Vec::new(alloc);
    for _ in 0..65_535 {
        let boxed: Box<dyn MapFn> = Box::new(alloc, Neg {})?;
        boxes.push(boxed)?;
    }
    let kept = keep_all(&mut functions, &mut boxes);
    assert!(rt; kept);
    let boxed: Box<dyn MapFn> = Box::new(alloc, Neg {})?;
    let too_many = boxed.sig().is_map()
        && matches!(functions.add_map(boxed), Err((MoreFault::TooMany, _)));
    assert!(rt; too_many);
    Ok(())
}

#[test]
fn builds_the_table(rt: HostRuntime) -> Result<(), Fail> {
    let alloc = rt.alloc();
    let mut functions = Closures::new(alloc);
    let boxed: Box<dyn MapFn> = Box::new(alloc, Neg {})?;
    let neg = match keep_map(&mut functions, boxed) {
        Some(f) => f,
        None => return Err(Fail::new("no negation is kept")),
    };
    let boxed: Box<dyn MapFn> = Box::new(alloc, Sum {})?;
    let add = match keep_map(&mut functions, boxed) {
        Some(f) => f,
        None => return Err(Fail::new("no sum is kept")),
    };
    let Some(of_left) = NegOfLeft::new(&neg) else {
        return Err(Fail::new("the negation has other types"));
    };
    let boxed: Box<dyn RhsFn> = Box::new(alloc, of_left)?;
    let of_left = match functions.add_rhs(boxed) {
        Ok(f) => f,
        Err(_) => return Err(Fail::new("no negation of the left is kept")),
    };
    let Some(table) = Table::new(&neg, &add, &of_left) else {
        return Err(Fail::new("the functions have other types"));
    };
    let boxed: Box<dyn RhsFn> = Box::new(alloc, table)?;
    let table = match functions.add_rhs(boxed) {
        Ok(f) => f,
        Err(_) => return Err(Fail::new("no table is kept")),
    };
    let named = Named {
        table,
        neg,
        add,
        of_left,
    };
    let listed = builds_as_listed(alloc, &mut functions, &named);
    assert!(rt; listed);
    Ok(())
}

#[test]
fn keeps_one_more(rt: HostRuntime) -> Result<(), Fail> {
    let alloc = rt.alloc();
    let mut functions = Closures::new(alloc);
    let boxed: Box<dyn MapFn> = Box::new(alloc, Neg {})?;
    let neg = match keep_map(&mut functions, boxed) {
        Some(f) => f,
        None => return Err(Fail::new("no negation is kept")),
    };
    let boxed: Box<dyn MapFn> = Box::new(alloc, Sum {})?;
    let is_map = boxed.sig().is_map();
    assert!(rt; is_map);
    let given = kept(alloc, &mut functions, &neg, NewFn::Map(boxed));
    assert!(rt; matches!(&given, Some(Value::Int(-3))));
    let known = held(alloc, functions, neg);
    assert!(rt; known);
    Ok(())
}
