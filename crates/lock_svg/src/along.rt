//! What the columns of a picture stand for.
ghost use Rattle.std.specs.Prelude.{◌≡◌};
ghost use Rattle.lock_svg.specs.Words.{unit_text};

/// What the columns of a picture stand for.
#[derive(Clone, Copy, Debug, PartialEq, Eq)]
pub enum Along {
    /// The lines of a script.
    Script,
    /// The ticks of a run.
    Run,
}

impl Along {
    /// The word for one column.
    pub fn unit(self) -> &'static str
        ensures { result.now ≡ unit_text self }
    {
        match self {
            Along::Script => "line",
            Along::Run => "tick",
        }
    }

    /// The word for all columns together.
    pub fn whole(self) -> &'static str {
        match self {
            Along::Script => "script",
            Along::Run => "run",
        }
    }
}
