//! The ends of programs that are drawn: those of every order of single turns.

use crate::begun::{begun, images_of};
use crate::drawn::{Chance, drawn_source};
use crate::single_turns::{BLOCKS, Found, found_by_turns, is_among, told_of};
use job_orders::{Looked, Report, look};
use state_search::Unwatched;
use std::alloc::{AllocError, Global};
use std::process::Abort;
use std::test::Fail;
use word36::Image;

/// Two or three programs that are drawn by a number.
fn drawn_images(rt: &impl Abort, alloc: Global, seed: u32) -> Result<Vec<Image>, AllocError> {
    let mut chance = Chance::new(seed);
    let most = if seed % 3 == 2 { 1 } else { 3 };
    let first = drawn_source(alloc, &mut chance, most)?;
    let second = drawn_source(alloc, &mut chance, most)?;
    let third = drawn_source(alloc, &mut chance, most)?;
    let sources = [first.as_str(), second.as_str(), third.as_str()];
    let count = if seed % 3 == 2 { 3 } else { 2 };
    images_of(rt, alloc, &sources[..count])
}

/// Whether a report has exactly the ends that were found, and a circle exactly if there is one.
fn is_right(alloc: Global, report: &Report, found: &Found) -> Result<bool, AllocError> {
    let mut is_right = report.ends.len() == found.ends.len()
        && report.circle.is_some() == found.has_circle
        && report.states <= found.states;
    for end in report.ends.as_slice() {
        let told = told_of(alloc, end)?;
        is_right = is_right && is_among(&told, found.ends.as_slice());
    }
    Ok(is_right)
}

/// Whether the programs of a number end as every order of single turns has them end.
fn ends_rightly(rt: &impl Abort, alloc: Global, seed: u32) -> Result<bool, AllocError> {
    let images = drawn_images(rt, alloc, seed)?;
    let system = begun(alloc, BLOCKS, images.as_slice())?;
    let looked = look(alloc, system, BLOCKS, 100, 10_000, &mut Unwatched)?;
    let Some(found) = found_by_turns(alloc, images.as_slice())? else {
        return Ok(false);
    };
    match looked {
        Looked::All(report) => is_right(alloc, &report, &found),
        Looked::GaveUp(_) => Ok(false),
    }
}

/// The first number from one on and below another whose programs do not.
fn first_wrong(
    rt: &impl Abort,
    alloc: Global,
    from: u32,
    end: u32,
) -> Result<Option<u32>, AllocError> {
    for seed in from..end {
        if !ends_rightly(rt, alloc, seed)? {
            return Ok(Some(seed));
        }
    }
    Ok(None)
}

#[test]
fn drawn_programs_to_90(rt: HostRuntime) -> Result<(), Fail> {
    assert_eq!(rt; first_wrong(&rt, rt.alloc(), 0, 90)?, None);
    Ok(())
}

#[test]
fn drawn_programs_to_180(rt: HostRuntime) -> Result<(), Fail> {
    assert_eq!(rt; first_wrong(&rt, rt.alloc(), 90, 180)?, None);
    Ok(())
}

#[test]
fn drawn_programs_to_270(rt: HostRuntime) -> Result<(), Fail> {
    assert_eq!(rt; first_wrong(&rt, rt.alloc(), 180, 270)?, None);
    Ok(())
}

#[test]
fn drawn_programs_to_360(rt: HostRuntime) -> Result<(), Fail> {
    assert_eq!(rt; first_wrong(&rt, rt.alloc(), 270, 360)?, None);
    Ok(())
}

#[test]
fn drawn_programs_to_450(rt: HostRuntime) -> Result<(), Fail> {
    assert_eq!(rt; first_wrong(&rt, rt.alloc(), 360, 450)?, None);
    Ok(())
}
