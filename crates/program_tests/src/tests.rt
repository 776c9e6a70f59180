//! Whether the rows are answered as they say.

use crate::driver::is_answered;
use crate::generated::{GENERATED, is_summed_up};
use crate::lists::LISTS;
use crate::rows::{BINDS, CHOICES, CLOCK, LANGUAGE, LIMITS, Row, STREAMS, SUMS, WATCHES};
use std::alloc::Global;
use std::test::Fail;

/// The name of the first row that isn't answered as it says.
fn first_unanswered(alloc: Global, rows: &[Row]) -> Option<&'static str> {
    for row in rows {
        if !is_answered(alloc, row) {
            return Some(row.name);
        }
    }
    None
}

/// Fails with the name of the first row that isn't answered as it says.
fn are_answered(alloc: Global, rows: &[Row]) -> Result<(), Fail> {
    match first_unanswered(alloc, rows) {
        Some(name) => Err(Fail::new(name)),
        None => Ok(()),
    }
}

#[test]
fn sums_are_answered(rt: HostRuntime) -> Result<(), Fail> {
    are_answered(rt.alloc(), SUMS)
}

#[test]
fn binds_are_answered(rt: HostRuntime) -> Result<(), Fail> {
    are_answered(rt.alloc(), BINDS)
}

#[test]
fn choices_are_answered(rt: HostRuntime) -> Result<(), Fail> {
    are_answered(rt.alloc(), CHOICES)
}

#[test]
fn limits_are_answered(rt: HostRuntime) -> Result<(), Fail> {
    are_answered(rt.alloc(), LIMITS)
}

#[test]
fn language_is_answered(rt: HostRuntime) -> Result<(), Fail> {
    are_answered(rt.alloc(), LANGUAGE)
}

#[test]
fn clock_is_answered(rt: HostRuntime) -> Result<(), Fail> {
    are_answered(rt.alloc(), CLOCK)
}

#[test]
fn watches_are_answered(rt: HostRuntime) -> Result<(), Fail> {
    are_answered(rt.alloc(), WATCHES)
}

#[test]
fn lists_are_answered(rt: HostRuntime) -> Result<(), Fail> {
    are_answered(rt.alloc(), LISTS)
}

#[test]
fn streams_are_answered(rt: HostRuntime) -> Result<(), Fail> {
    are_answered(rt.alloc(), STREAMS)
}

#[test]
fn generated_scripts_are_summed_up(rt: HostRuntime) -> Result<(), Fail> {
    for row in GENERATED {
        if !is_summed_up(rt.alloc(), row) {
            return Err(Fail::new(row.name));
        }
    }
    Ok(())
}
