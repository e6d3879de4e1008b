//! Files that are not read.

use crate::joined::{Part, part_of};
use std::alloc::{AllocError, Global};

/// The lines on the files of a source that begin behind the line with END, one for each; none if there is no such line, whose
/// number is 0 then.
pub fn unread_text(alloc: Global, parts: &[Part], end: usize) -> Result<String, AllocError> {
    let mut text = String::new(alloc);
    let Some(with_end) = part_of(parts, end) else {
        return Ok(text);
    };
    let line = end.saturating_sub(with_end.before);
    for part in parts {
        if part.before >= end {
            let (file, other) = (part.file.as_str(), with_end.file.as_str());
            write!(text, "{file}: not read, since END is at {other}:{line}\n")?;
        }
    }
    Ok(text)
}
