//! Lines, read from their bytes.
ghost use Rattle.std.specs.Prelude.{IfOk, IsErrOf};
ghost use Rattle.line_parser.specs.TreeView.{line_view};
ghost use Rattle.script_model.specs.Grammar.{IsLine, IsNoLine, IsTooDeep};

use crate::tree::Line;
use line_tokens::{is_too_deep, tokens};
use std::alloc::{AllocError, Global};
use thiserror::Error;

/// What is found. Where nothing is, or there is no memory, the function round it answers so.
macro_rules! found {
    ($answer:expr) => {
        match $answer {
            Ok(Some(found)) => found,
            Ok(None) => return Ok(None),
            Err(error) => return Err(error),
        }
    };
}

mod clock;
mod command;
mod cursor;
mod formula;
mod freeze;
mod literal;
mod names;
mod word;

use command::command_of;

/// Why bytes are read into no line.
#[derive(Clone, Copy, Debug, PartialEq, Eq, Error)]
pub enum ParseFault {
    /// The bytes are no tokens, or no line by the grammar.
    #[error("the line is no command")]
    Form,
    /// More than 64 levels are open at once.
    #[error("the line is nested more than 64 levels deep")]
    Level,
    /// There is no memory for the command.
    #[error("out of memory")]
    Memory,
}

impl From<AllocError> for ParseFault {
    ghost use Rattle.std.specs.Prelude.{◌≡◌};
    ghost use Rattle.line_parser.specs.declared.parser.ParseFault.TheVariants.{Memory};

    ghost from_gives = { λ _ e. e ≡ Memory };

    fn from(_error: AllocError) -> ParseFault {
        ParseFault::Memory
    }
}

/// Reads the tree of the line that the bytes are, by the whole grammar: of a line without its newline
/// and its carriage return that is no comment.
///
/// A line that is no tokens has the fault `Form`; else one with more than 64 levels open at once,
/// `Level`; else one that is no command by the grammar, or has an integer that is no `i64` or a text of
/// more than 4,096 bytes, `Form` again. `Memory` may come at any point.
pub fn parse(alloc: Global, text: &[u8]) -> Result<Line, ParseFault>
    ensures line { IfOk result (λ line. IsLine text.now (line_view line)) }
    ensures level { IsErrOf result ParseFault.Level → IsTooDeep text.now }
    ensures form { IsErrOf result ParseFault.Form → IsNoLine text.now }
{
    let Some(tokens) = tokens(alloc, text)? else {
        return Err(ParseFault::Form);
    };
    if is_too_deep(&tokens) {
        return Err(ParseFault::Level);
    }
    match command_of(alloc, &tokens)? {
        Some(command) => Ok(command),
        None => Err(ParseFault::Form),
    }
}
