//! What the bytes of a line ask for.
ghost use Rattle.std.specs.Prelude.{◌≡◌, IfOk};
ghost use Rattle.script_model.specs.Language.{is_blank, without_return};
ghost use Rattle.script_model.specs.Request.{IsRequest};
ghost use Rattle.session.specs.RequestView.{request_view};

use line_parser::{Line, ParseFault, parse};
use std::alloc::{AllocError, Global};

/// The most bytes that a line may have.
const LINE_LIMIT: usize = 4_096;

/// What a line asks for.
#[derive(Drop)]
pub(crate) enum Request {
    /// The line is too long.
    TooLong,
    /// Nothing, and no answer.
    Blank,
    /// The line is no command.
    Malformed,
    /// The line is nested too deep.
    TooDeep,
    Asks(Line),
}

/// The line without one carriage return at its end.
fn without_return(line: &[u8]) -> &[u8]
    ensures { result.now ≡ without_return line.now }
{
    line.strip_suffix(b"\r").unwrap_or(line)
}

/// Whether a line is spaces alone, or its first other byte is `#`.
fn is_blank(content: &[u8]) -> bool
    ensures { result ≡ is_blank content.now }
{
    for byte in content {
        if *byte != b' ' {
            return *byte == b'#';
        }
    }
    true
}

/// What a line of a script, without its newline, asks for.
pub(crate) fn read_request(alloc: Global, line: &[u8]) -> Result<Request, AllocError>
    ensures { IfOk result (λ r. IsRequest line.now (request_view r)) }
{
    if line.len() > LINE_LIMIT {
        return Ok(Request::TooLong);
    }
    let content = without_return(line);
    if is_blank(content) {
        return Ok(Request::Blank);
    }
    match parse(alloc, content) {
        Ok(line) => Ok(Request::Asks(line)),
        Err(ParseFault::Form) => Ok(Request::Malformed),
        Err(ParseFault::Level) => Ok(Request::TooDeep),
        Err(ParseFault::Memory) => Err(AllocError),
    }
}
