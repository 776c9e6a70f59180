//! Maps of integers.

use inc_value::{Sig, Ty, Value};
use node_arena::MapFn;
use std::alloc::{AllocError, Global};

/// A function of one integer, which gives the same at each call.
pub trait IntFn: Drop {
    ghost use Rattle.std.specs.Prelude.{◌≡◌, ℤ};
    ghost use Rattle.function_kit.specs.Maps.{StaysInRange};

    // what it gives
    ghost gives: { Self → ℤ → ℤ };

    /// What it gives for an integer.
    fn call(&self, x: i64) -> i64
        ensures { result ≡ gives self.now x };

    /// Of an integer of 64 bits it gives one. This is a fact for proofs: the body is empty, and nothing runs.
    fn fits(&self)
        ensures { StaysInRange (gives self.now) };
}

/// A function of two integers, which gives the same at each call.
pub trait IntFn2: Drop {
    ghost use Rattle.std.specs.Prelude.{◌≡◌, ℤ};
    ghost use Rattle.function_kit.specs.Maps.{StaysInRange2};

    // what it gives
    ghost gives: { Self → ℤ → ℤ → ℤ };

    /// What it gives for two integers.
    fn call(&self, x: i64, y: i64) -> i64
        ensures { result ≡ gives self.now x y };

    /// Of integers of 64 bits it gives one. This is a fact for proofs: the body is empty, and nothing runs.
    fn fits(&self)
        ensures { StaysInRange2 (gives self.now) };
}

/// A map of one integer by a function.
#[derive(Drop)]
pub struct Fn1<T: IntFn> {
    by: T,
}

impl<T: IntFn> Fn1<T> {
    ghost use Rattle.std.specs.Prelude.{◌≡◌};

    /// The map by the function.
    pub fn new(by: T) -> Fn1<T>
        ensures { result.by ≡ by }
    {
        Fn1 { by }
    }
}

impl<T: IntFn> MapFn for Fn1<T> {
    ghost use Rattle.node_arena.specs.Meanings.{uncounted};
    ghost use Rattle.function_kit.specs.Maps.{int_to_int, mapped};

    ghost map_sig = { λ s. int_to_int };

    ghost map_value = { λ s args. mapped (T.gives s.by) args };

    ghost map_calls = { λ s. uncounted };

    fn sig(&self) -> Sig {
        self.by.fits();
        Sig::new(&[Ty::Int], Ty::Int)
    }

    fn apply(&mut self, alloc: Global, args: &[Value]) -> Result<Value, AllocError> {
        let _ = alloc;
        match args {
            [Value::Int(x)] => Ok(Value::Int(self.by.call(*x))),
            _ => Ok(Value::Int(0)),
        }
    }
}

/// A map of two integers by a function.
#[derive(Drop)]
pub struct Fn2<T: IntFn2> {
    by: T,
}

impl<T: IntFn2> Fn2<T> {
    ghost use Rattle.std.specs.Prelude.{◌≡◌};

    /// The map by the function.
    pub fn new(by: T) -> Fn2<T>
        ensures { result.by ≡ by }
    {
        Fn2 { by }
    }
}

impl<T: IntFn2> MapFn for Fn2<T> {
    ghost use Rattle.node_arena.specs.Meanings.{uncounted};
    ghost use Rattle.function_kit.specs.Maps.{ints_to_int, mapped2};

    ghost map_sig = { λ s. ints_to_int };

    ghost map_value = { λ s args. mapped2 (T.gives s.by) args };

    ghost map_calls = { λ s. uncounted };

    fn sig(&self) -> Sig {
        self.by.fits();
        Sig::new(&[Ty::Int, Ty::Int], Ty::Int)
    }

    fn apply(&mut self, alloc: Global, args: &[Value]) -> Result<Value, AllocError> {
        let _ = alloc;
        match args {
            [Value::Int(x), Value::Int(y)] => Ok(Value::Int(self.by.call(*x, *y))),
            _ => Ok(Value::Int(0)),
        }
    }
}
