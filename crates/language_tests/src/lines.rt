//! Lines that no session hands on as they are, and the grammar of times, freezes and experts.
use line_parser::{Line, ParseFault, Time, parse};
use node_arena::Library;
use std::alloc::{AllocError, Global};
use std_library::StdLib;

const FORM: Option<ParseFault> = Some(ParseFault::Form);

const LEVEL: Option<ParseFault> = Some(ParseFault::Level);

/// Lines of freezes and experts.
const READ: &[&str] = &[
    "let y freeze x when pos",
    "let y freeze freeze x when pos when not",
    "let y f(freeze x when pos)",
    "let y if freeze p when f then x else x",
    "let y freeze if p then x else x when pos",
    "expert e fold add from 0",
    "expert e fold f from &x",
    "link e x",
    "unlink e x",
    "stale e",
];

/// What is no line, though it begins as one of times, freezes, experts or watches.
const NOT_READ: &[&str] = &[
    "let y at",
    "let y at -5",
    "let y at x",
    "let y at \"5\"",
    "let y now()",
    "let y now now",
    "let y steps []",
    "let y steps 0",
    "let y steps 0 [1]",
    "let y steps 0 [1: 1,]",
    "let y steps 0 [1s: x]",
    "let y steps 0 [-1: 1]",
    "let y steps 0 (1: 1)",
    "let y freeze x",
    "let y freeze x when",
    "let y freeze x when if",
    "let y freeze x when f g",
    "let y freeze when f",
    "let y freeze freeze x when f",
    "let y freeze x when f when g",
    "let y after",
    "let y after x",
    "let y every -1",
    "expert e add from 0",
    "expert e fold add 0",
    "expert e fold add from x",
    "expert e fold if from 0",
    "expert e fold add from 0 0",
    "link e",
    "link e x x",
    "unlink e",
    "unlink if x",
    "stale",
    "stale e x",
    "watch",
    "watch o o",
    "advance",
    "advance -5",
    "advance x",
    "advance 5 5",
    "advance-to",
    "advance-to 5 5",
    "advance to 5",
    "let y steps 0 [1: 9223372036854775808]",
];

/// What a session passes over or takes off, and a newline in each place: none of it is part of a line.
const UNCUT: &[&str] = &[
    " ",
    "#",
    "#show o",
    "\r",
    "show \r",
    "show o\r",
    "unobserve o\r",
    "set x 1\r",
    "\n",
    "\nshow o",
    "show\no",
    "show \n",
    "show o\n",
    "unobserve\no",
    "unobserve o\n",
    "set x 1\n",
    "set x \"\n\"",
    "set x \"\\\n\"",
    "let y fold f from 0 [\n]",
    "let y fold f from 0 [x\nx]",
    "let y fold f from 0 \n]",
];

/// Lines, most of them longer than a session takes, as a front, a piece and how often it
/// stands, a middle, and an end that stands as often, with the fault of each.
const LONG: &[(&str, &str, usize, &str, &str, Option<ParseFault>)] = &[
    ("let y ", "f(", 10_000, "1", "", LEVEL),
    ("", "(", 10_000, "", "", LEVEL),
    ("", "[", 10_000, "", "", LEVEL),
    ("let y ", "if ", 10_000, "", "", LEVEL),
    ("let y ", "bind ", 10_000, "", "", LEVEL),
    ("let y ", "fold f from 0 [", 10_000, "", "", LEVEL),
    ("var x text \"", "a", 4096, "\"", "", None),
    ("var x text \"", "a", 4097, "\"", "", FORM),
    ("var x text \"", "\\\"", 4096, "\"", "", None),
    ("var x text \"", "\\\"", 4097, "\"", "", FORM),
    ("let y ", "freeze ", 10_000, "x", " when f", None),
    ("let y ", "freeze ", 10_000, "x", "", FORM),
    ("let y ", "freeze join(", 64, "x", ") when f", None),
];

/// Times as they are written, with their nanoseconds; none where they are too large.
const TIMES: &[(&str, Option<u64>)] = &[
    ("0", Some(0)),
    ("007", Some(7)),
    ("5ns", Some(5)),
    ("5us", Some(5_000)),
    ("5ms", Some(5_000_000)),
    ("5s", Some(5_000_000_000)),
    ("0s", Some(0)),
    ("9223372036854775807", Some(9_223_372_036_854_775_807)),
    ("9223372036854775808", None),
    ("9223372036854775807ns", Some(9_223_372_036_854_775_807)),
    ("9223372036854775us", Some(9_223_372_036_854_775_000)),
    ("9223372036854776us", None),
    ("9223372036854ms", Some(9_223_372_036_854_000_000)),
    ("9223372036855ms", None),
    ("9223372036s", Some(9_223_372_036_000_000_000)),
    ("9223372037s", None),
    ("18446744073709551615", None),
    ("18446744073709551616", None),
    ("18446744074s", None),
    ("99999999999999999999999ms", None),
    ("000000000000000000000000000001s", Some(1_000_000_000)),
];

/// Whether each line is read.
fn are_read(alloc: Global, lines: &[&str]) -> bool {
    for line in lines {
        match parse(alloc, line.as_bytes()) {
            Ok(parsed) => drop(parsed),
            Err(_) => return false,
        }
    }
    true
}

/// Whether each line is none.
fn are_none(alloc: Global, lines: &[&str]) -> bool {
    for line in lines {
        if parse(alloc, line.as_bytes()).err() != FORM {
            return false;
        }
    }
    true
}

/// Makes the line of `front`, `count` times `piece`, `middle`, and `count` times `end`.
fn make(
    line: &mut Vec<u8>,
    front: &str,
    piece: &str,
    count: usize,
    middle: &str,
    end: &str,
) -> Result<(), AllocError> {
    line.clear();
    line.extend_from_slice(front.as_bytes())?;
    for _ in 0..count {
        line.extend_from_slice(piece.as_bytes())?;
    }
    line.extend_from_slice(middle.as_bytes())?;
    for _ in 0..count {
        line.extend_from_slice(end.as_bytes())?;
    }
    Ok(())
}

/// Whether the long lines, made in the buffer, have the faults of their rows.
fn have_their_faults(alloc: Global, line: &mut Vec<u8>) -> bool {
    for (front, piece, count, middle, end, fault) in LONG {
        if make(line, front, piece, *count, middle, end).is_err()
            || parse(alloc, line).err() != *fault
        {
            return false;
        }
    }
    true
}

/// The same with a buffer of its own.
fn tells_long_lines(alloc: Global) -> bool {
    let mut line = Vec::new(alloc);
    let well = have_their_faults(alloc, &mut line);
    drop(line);
    well
}

/// The time of an `advance`, if it is one.
fn span_of(line: &Line) -> Option<Time> {
    match line {
        Line::Advance { span } => Some(*span),
        _ => None,
    }
}

/// Whether the text is a time of so many nanoseconds.
fn is_time(alloc: Global, text: &str, nanoseconds: Option<u64>) -> bool {
    let Ok(line) = format!(in alloc; "advance {text}") else {
        return false;
    };
    match parse(alloc, line.as_bytes()) {
        Ok(parsed) => {
            let span = span_of(&parsed);
            drop(parsed);
            match span {
                Some(Time::Nanoseconds(found)) => nanoseconds == Some(found),
                Some(Time::TooLarge) => nanoseconds.is_none(),
                None => false,
            }
        }
        Err(_) => false,
    }
}

/// Whether the times are those of their rows.
fn are_times(alloc: Global, rows: &[(&str, Option<u64>)]) -> bool {
    for (text, nanoseconds) in rows {
        if !is_time(alloc, text, *nanoseconds) {
            return false;
        }
    }
    true
}

#[test]
fn reads_lines(rt: HostRuntime) {
    assert!(rt; are_read(rt.alloc(), READ));
    assert!(rt; are_none(rt.alloc(), NOT_READ));
    assert!(rt; are_none(rt.alloc(), UNCUT));
    assert!(rt; tells_long_lines(rt.alloc()));
    assert!(rt; are_times(rt.alloc(), TIMES));
}

#[test]
fn no_function_lacks_a_name(rt: HostRuntime) {
    assert!(rt; StdLib::new().find(b"").is_none());
}
