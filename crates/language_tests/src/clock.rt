//! Lines with times and spans, as they are checked by the clock.
use crate::elaboration::names;
use formula_lang::{CheckFault, Names, check};
use line_parser::parse;
use std::alloc::Global;
use std_library::StdLib;

/// A time of the clock in nanoseconds, a line, and the number that it is refused with at that time; 0 where it is allowed.
/// One name is declared: `a`, of integers.
const ROWS: &[(u32, &str, u8)] = &[
    (0, "let y at 0", 0),
    (9, "let y at 5", 0),
    (0, "let y at 9223372036854775807", 0),
    (0, "let y now", 0),
    (0, "let y steps 0 []", 0),
    (0, "let y steps true [5ns: false, 1us: true]", 0),
    (0, "let y steps &a [1: &a]", 0),
    (0, "let y fold add from 0 [now, steps 1 [2s: 3], a]", 0),
    (0, "let y if at 5 then a else now", 0),
    (0, "let y bind v = now in if at 5 then v else a", 0),
    (0, "let y bind v = a in steps 1 [2s: 3]", 0),
    (0, "let y after 0", 0),
    (5, "let y after 9223372036854775802", 0),
    (0, "let y every 1", 0),
    (5, "let y every 9223372036854775807", 0),
    (5, "advance 0", 0),
    (5, "advance 9223372036854775802", 0),
    (5, "advance-to 5", 0),
    (5, "advance-to 9223372036854775807", 0),
    // a name is taken or unknown, a function is unknown: these come before
    (0, "let a every 0", 3),
    (0, "let y steps &z []", 4),
    (0, "let y steps &a [1: &a, 2: &z]", 4),
    (0, "let y bind v = a in steps &v []", 4),
    (0, "let y add(z, after 5)", 4),
    (0, "let y no(after 5)", 5),
    // not the whole of a declared formula
    (0, "let y not(after 5)", 14),
    (0, "let y if after 5 then a else a", 14),
    (0, "let y join(every 1)", 14),
    (0, "let y fold add from 0 [every 1]", 14),
    (0, "let y bind v = every 1 in v", 14),
    (0, "let y bind v = a in after 5", 14),
    (0, "let y neg(after 9223372036854775808)", 14),
    // types that don't fit
    (0, "let y neg(at 9223372036854775808)", 6),
    (0, "let y not(now)", 6),
    (0, "let y steps 0 [1: true, 1: 2]", 6),
    (0, "let y steps &a [1: 1]", 6),
    // too late
    (0, "let y at 9223372036854775808", 16),
    (0, "let y not(at 9223372037s)", 16),
    (0, "let y steps 0 [9223372036854775808: 1, 5: 2]", 16),
    (0, "let y every 9223372036854775808", 16),
    (5, "let y after 9223372036854775803", 16),
    (0, "let y after 9223372036854775808", 16),
    (5, "advance 9223372036854775803", 16),
    (5, "advance-to 9223372036854775808", 16),
    // times that don't rise
    (0, "let y steps 0 [5: 1, 5: 2]", 17),
    (0, "let y steps 0 [1: 1, 6: 2, 5: 3]", 17),
    (0, "let y add(a, steps 0 [1us: 1, 1000ns: 2])", 17),
    (0, "let y bind v = a in steps 0 [2: 1, 1: 2]", 17),
    // an empty span
    (0, "let y every 0", 18),
    (5, "let y every 000ms", 18),
    // a time that is past
    (5, "advance-to 4", 15),
    (4_000_000_000, "advance-to 3999ms", 15),
];

/// What the line is refused with, 0 where it is allowed; none where it is no line, or memory is short.
fn refusal(alloc: Global, line: &str, names: &Names) -> Option<u8> {
    let Ok(line) = parse(alloc, line.as_bytes()) else {
        return None;
    };
    let number = match check(alloc, &line, names, &StdLib::new()) {
        Ok(command) => {
            drop(command);
            Some(0)
        }
        Err(CheckFault::Refusal(number)) => Some(number),
        Err(CheckFault::Memory) => None,
    };
    drop(line);
    number
}

/// Whether the lines are answered as their rows say.
fn are_answered(alloc: Global, rows: &[(u32, &str, u8)]) -> bool {
    let Some(mut names) = names(alloc) else {
        return false;
    };
    let mut well = true;
    for (now, line, number) in rows {
        names.set_now(i64::from(*now));
        well &= refusal(alloc, line, &names) == Some(*number);
    }
    drop(names);
    well
}

#[test]
fn checks_times_and_spans(rt: HostRuntime) {
    assert!(rt; are_answered(rt.alloc(), ROWS));
}
