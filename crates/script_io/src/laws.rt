//! Laws of the lines of bytes.
ghost use Rattle.script_io.specs.Lines.{LinesEndAtNewlines, LastLineEndsAtEnd};

/// A line that ends at a newline stands before the lines of the rest. The call does nothing.
pub fn lines_end_at_newlines()
    ensures { LinesEndAtNewlines }
{}

/// Bytes without a newline are one line where there are any. The call does nothing.
pub fn last_line_ends_at_end()
    ensures { LastLineEndsAtEnd }
{}
