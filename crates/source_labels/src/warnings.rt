//! Warnings: what a person may not have meant.

use crate::places::Places;
use machine::JBREL;
use std::alloc::{AllocError, Global};
use word36::Image;

/// Addresses below this one are not meant for programs.
const FIRST_PLACE: u32 = 0o140;

/// The warnings on a program: of a word where LOGIN writes over it, and of literals below the addresses of programs.
pub fn warnings_of(
    alloc: Global,
    file: &str,
    image: &Image,
    places: &Places,
) -> Result<String, AllocError> {
    let mut text = String::new(alloc);
    if image
        .words
        .as_slice()
        .iter()
        .any(|(place, _)| *place == JBREL)
    {
        let line = format!(in alloc;
            "{file}: warning: the word at {JBREL:o} is lost: LOGIN writes the highest place of the job's core there\n"
        )?;
        text.push_str(line.as_str())?;
    }
    let literals = places.literals;
    if literals.first < literals.end && literals.first < FIRST_PLACE {
        let line = format!(in alloc;
            "{file}: warning: the literals stand at {:o}, where END is, below {FIRST_PLACE:o}\n",
            literals.first
        )?;
        text.push_str(line.as_str())?;
    }
    Ok(text)
}
