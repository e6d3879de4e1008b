//! What an operator and users at all lines might do.

use crate::generator::Generator;
use monitor::Event;
use tty_lines::Char7;
use word36::{Image, JOBS, LINES};

/// The shares of the events, out of 1,000; what is left over is a step or a tick by turns.
const TYPED: u32 = 60;

const TAKE: u32 = 40;

const LOGIN: u32 = 6;

const START: u32 = 10;

const CONTINUE: u32 = 8;

const KILL: u32 = 3;

/// How many programs there are to begin with.
const PROGRAMS: u32 = 5;

/// A restart comes once in so many events.
const RESTART: u32 = 200_000;

/// A character, mostly of a text; CTRL-C and the ends of lines now and then.
fn character(generator: &mut Generator) -> Char7 {
    let number = match generator.below(20) {
        0 => 0o15,
        1 => 0o3,
        _ => u64::from(generator.below(128)),
    };
    Char7::low_bits(number)
}

/// A line, or now and then a number that is none.
fn line(generator: &mut Generator) -> u8 {
    u8::try_from(generator.below(u32::from(LINES) + 1)).unwrap_or(LINES)
}

/// A job, or now and then a number that is none.
fn job(generator: &mut Generator) -> u8 {
    u8::try_from(generator.below(u32::from(JOBS) + 2)).unwrap_or(JOBS)
}

/// A login at a line with one of the images; a tick where there is none.
fn login<'a>(generator: &mut Generator, images: &'a [Image]) -> Event<'a> {
    let line = line(generator);
    match images.get(generator.below(PROGRAMS) as usize) {
        Some(image) => Event::Login(line, image),
        None => Event::Tick,
    }
}

/// The next event.
pub fn next_event<'a>(generator: &mut Generator, images: &'a [Image]) -> Event<'a> {
    if generator.below(RESTART) == 0 {
        return Event::Restart;
    }
    let mut drawn = generator.below(1000);
    if drawn < TYPED {
        return Event::Typed(line(generator), character(generator));
    }
    drawn -= TYPED;
    if drawn < TAKE {
        return Event::Take(line(generator), generator.below(70) as usize);
    }
    drawn -= TAKE;
    if drawn < LOGIN {
        return login(generator, images);
    }
    drawn -= LOGIN;
    if drawn < START {
        return Event::Start(job(generator));
    }
    drawn -= START;
    if drawn < CONTINUE {
        return Event::Continue(job(generator));
    }
    drawn -= CONTINUE;
    if drawn < KILL {
        return Event::Kill(job(generator));
    }
    if drawn % 3 == 0 {
        Event::Tick
    } else {
        Event::Step
    }
}
