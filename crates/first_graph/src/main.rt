//! A first graph: what a position is worth, and what it is worth once the price has risen.
#![tactic(auto)]

ghost use Rattle.std.specs.Prelude.{IsTrue};

use closures::Closures;
use graph::Graph;
use graph_kit::{Fn2, IntFn2, int, set_int};
use inc_value::{FnRef, Value};
use node_arena::{Functions, MapFn};
use std::alloc::Global;
use std::io;

/// The product of two integers, wrapping at 64 bits.
#[derive(Drop)]
struct Product {}

impl IntFn2 for Product {
    ghost use Rattle.std.specs.Int.{w64, int_wrapping_mul};

    ghost gives = { λ s x y. int_wrapping_mul w64 x y };

    fn call(&self, x: i64, y: i64) -> i64 {
        x.wrapping_mul(y)
    }

    fn fits(&self) {}
}

/// What is shown, and how many functions were called for it: at first, and once the price has risen.
fn numbers<F: Functions>(alloc: Global, functions: F, product: FnRef) -> Option<[i64; 4]>
    requires sound { F.is_sound functions }
    requires known { IsTrue (F.known functions product) }
{
    let mut graph = Graph::new(alloc, functions);
    let quantity = graph.var(Value::Int(40)).ok()?;
    let price = graph.var(Value::Int(100)).ok()?;
    let worth = graph.map(product, &[quantity, price]).ok()?;
    let shown = graph.observe(worth).ok()?;
    graph.stabilize().ok()?;
    let first = int(&graph, shown)?;
    let first_calls = graph.round().ran.len() as i64;
    set_int(&mut graph, price, 110).ok()?;
    graph.stabilize().ok()?;
    let second = int(&graph, shown)?;
    let second_calls = graph.round().ran.len() as i64;
    drop(graph.into_functions());
    Some([first, first_calls, second, second_calls])
}

/// Prints what is shown, and how many functions were called.
fn tell(rt: &HostRuntime, worth: i64, calls: i64) -> io::Result<()> {
    println!(rt; "worth {worth}, calls {calls}")
}

fn main(rt: HostRuntime) -> io::Result<()> {
    let alloc = rt.alloc();
    let mut functions = Closures::new(alloc);
    let product: Box<dyn MapFn> = Box::new(alloc, Fn2::new(Product {}))?;
    if !product.sig().is_map() {
        return println!(rt; "the product has other types");
    }
    let Ok(product) = functions.add_map(product) else {
        return println!(rt; "no function is kept");
    };
    let Some(found) = numbers(alloc, functions, product) else {
        return println!(rt; "nothing is shown");
    };
    tell(&rt, found[0], found[1])?;
    tell(&rt, found[2], found[3])
}
