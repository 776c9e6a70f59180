//! The words of the command line, as the system tells them.
ghost use Rattle.std.specs.Prelude.{◌≡◌, [], IfOk, MatchResult, map, string_bytes};
ghost use Rattle.std.specs.Vec.Iter.{into_iter_items};

use script_io::Word;
use std::alloc::{AllocError, Global};
use std::io::ErrorKind;
use std::{env, io};

/// The words that the system tells, one for one and in order.
fn words_of(alloc: Global, args: env::Args) -> Result<Vec<Word>, AllocError>
    ensures words { IfOk result (λ words. words.items ≡ map string_bytes (into_iter_items args)) }
{
    let mut words = Vec::new(alloc);
    for arg in args {
        words.push(Word::new(arg))?;
    }
    Ok(words)
}

/// The words of the command line, of which the first is the program's name, one for one and in order, as `std::env::args`
/// told them. There are none where it told none for another cause than want of memory, or one that is not UTF-8.
pub fn words(alloc: Global, told: io::Result<env::Args>) -> Result<Vec<Word>, AllocError>
    ensures words { MatchResult told (λ args. IfOk result (λ words. words.items ≡ map string_bytes (into_iter_items args)))
        (λ _. IfOk result (λ words. words.items ≡ [])) }
{
    match told {
        Ok(args) => words_of(alloc, args),
        Err(error) if error.kind() == ErrorKind::OutOfMemory => Err(AllocError),
        Err(_) => Ok(Vec::new(alloc)),
    }
}
