//! The picture of a run.

use concrete_machine::Machine;
use lock_svg::RunCourse;
use std::alloc::{AllocError, Global};

/// A `RunCourse` has a column for each of so many first ticks. Later it has one where the locks may have changed.
const DRAWN_TICKS: u64 = 2_000;

/// The picture of a run, where one is asked for.
#[derive(Drop)]
pub struct Picture {
    /// What was seen of the locks, if it is drawn.
    course: Option<RunCourse>,
    /// Whether the locks may have changed since they were drawn last.
    pub may_differ: bool,
}

impl Picture {
    /// A run of which nothing was seen yet, and which is drawn or not.
    pub fn new(alloc: Global, is_drawn: bool) -> Self {
        let course = if is_drawn {
            Some(RunCourse::new(alloc))
        } else {
            None
        };
        Picture {
            course,
            may_differ: true,
        }
    }

    /// Whether each tick is drawn, at this tick of the run.
    pub fn draws_each(&self, tick: u64) -> bool {
        self.course.is_some() && tick < DRAWN_TICKS
    }

    /// Whether something is drawn behind the step of this tick.
    pub fn wants(&self, tick: u64) -> bool {
        self.course.is_some() && (self.may_differ || tick < DRAWN_TICKS)
    }

    /// Draws how the locks stand behind the step of this tick, where that is asked for.
    #[inline(never)]
    pub fn draw(&mut self, alloc: Global, machine: &Machine, tick: u64) -> Result<(), AllocError> {
        if let Some(course) = &mut self.course {
            course.look(alloc, tick, self.may_differ, machine.locks())?;
            self.may_differ = false;
        }
        Ok(())
    }

    /// The picture of a run of so many ticks, as SVG, where that is asked for.
    pub fn take_svg(
        &mut self,
        alloc: Global,
        machine: &Machine,
        ticks: u64,
    ) -> Result<Option<String>, AllocError> {
        match self.course.take() {
            Some(course) => match course.into_svg(alloc, ticks, machine.locks()) {
                Ok(svg) => Ok(Some(svg)),
                Err(error) => Err(error),
            },
            None => Ok(None),
        }
    }
}
