//! Events as an operator and users at all lines might make them.

use crate::generator::Generator;
use crate::machines::Machine;
use crate::plain_check::count_faults;
use crate::user_programs;
use crate::users::next_event;
use mac_asm::{AsmError, assemble};
use std::alloc::Global;
use std::io;
use word36::Image;

/// Between two looks at the whole state so many events happen.
const BETWEEN_LOOKS: u32 = 10_000;

/// A line is written after so many events.
const BETWEEN_LINES: u32 = 1_000_000;

/// The images of the programs that users run.
fn user_images(alloc: Global) -> Result<Vec<Image>, AsmError> {
    let mut images = Vec::with_capacity(alloc, user_programs::ALL.len())?;
    for source in user_programs::ALL {
        images.push(assemble(alloc, source.as_bytes())?)?;
    }
    Ok(images)
}

/// Makes so many events happen, drawn from a seed, writes how many faults were found, and says whether there
/// was none.
pub fn many_events<R, M>(rt: &R, mut machine: M, count: u32, seed: u32) -> io::Result<bool>
where
    R: Print + AllocGlobal,
    M: Machine,
{
    let Ok(images) = user_images(rt.alloc()) else {
        return Ok(false);
    };
    let mut generator = Generator::new(u64::from(seed));
    let mut faults = 0u32;
    for n in 1..=count {
        machine.happen(&next_event(&mut generator, images.as_slice()));
        if n % BETWEEN_LOOKS == 0 {
            faults = faults.saturating_add(count_faults(rt.alloc(), &machine));
        }
        if n % BETWEEN_LINES == 0 || n == count {
            rt.println(format_args!("EVENTS {n} FAULTS {faults}"))?;
        }
    }
    Ok(faults == 0)
}
