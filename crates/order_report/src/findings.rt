//! What a search of every order found.
ghost use Rattle.std.specs.Prelude.{◌≡◌};
ghost use Rattle.order_report.specs.Texts.{obstacle_words};

use crate::orders::OrderPart;
use run_facts::Standing;
use word36::Word;

/// A circle of waits.
#[derive(Drop)]
pub struct Circle {
    /// The jobs that wait in it, rising.
    pub jobs: Vec<u8>,
    /// A shortest order that leads there.
    pub order: Vec<OrderPart>,
}

/// How a job stands at an end.
#[derive(Drop)]
pub struct EndedJob {
    /// Whether it is gone, is stopped, or waits.
    pub standing: Standing,
    /// The line that tells of it, without its end.
    pub line: String,
}

/// A word that all jobs share.
#[derive(Clone, Copy)]
pub struct DataWord {
    /// Its number.
    pub number: u32,
    /// The word.
    pub word: Word,
}

/// What a job typed out.
#[derive(Drop)]
pub struct Typed {
    /// The number of its terminal line.
    pub line: u8,
    /// The characters, as they are told.
    pub text: Vec<u8>,
}

/// How orders end.
#[derive(Drop)]
pub struct End {
    /// How many calls that others can notice the shortest order has.
    pub calls: u64,
    /// How the jobs stand.
    pub jobs: Vec<EndedJob>,
    /// The words that all jobs share and that are not 0.
    pub shared: Vec<DataWord>,
    /// What the jobs typed out, where that is something.
    pub texts: Vec<Typed>,
    /// A shortest order.
    pub order: Vec<OrderPart>,
}

/// What holds of all orders.
#[derive(Drop)]
pub struct Report {
    /// How many jobs there are.
    pub jobs: u64,
    /// How many states were looked at.
    pub states: u64,
    /// A circle of waits, if some order leads to one.
    pub circle: Option<Circle>,
    /// The ends.
    pub ends: Vec<End>,
}

/// Why a search cannot go on from a state.
#[derive(Clone, Copy, Debug, PartialEq, Eq)]
pub enum Obstacle {
    /// A job asks for the time of day, which is no part of a state.
    TimeOfDay,
    /// A job waits with a time limit.
    TimeLimit,
    /// A job took as many turns as were allowed, and none that others can notice.
    Computes,
    /// Characters were typed at a job's line, which are no part of a state.
    Characters,
}

impl Obstacle {
    /// What a job does, in words.
    pub fn words(self) -> &'static str
        ensures { result.now ≡ obstacle_words self }
    {
        match self {
            Obstacle::TimeOfDay => "asks for the time of day",
            Obstacle::TimeLimit => "waits with a time limit",
            Obstacle::Computes => "computes on",
            Obstacle::Characters => "has characters typed at its line",
        }
    }
}

/// Where a search gave up.
#[derive(Drop)]
pub struct GiveUp {
    /// The number of the job.
    pub job: u8,
    /// What it does there.
    pub obstacle: Obstacle,
    /// The address, as it is told.
    pub place: String,
    /// A shortest order that leads there.
    pub order: Vec<OrderPart>,
}

/// What comes of a search.
#[derive(Drop)]
pub enum Found {
    /// Every state was looked at.
    All(Report),
    /// There are more states than this many. Nothing is told of them.
    TooMany(u64),
    /// It cannot go on from a state. Nothing is told of the others.
    GaveUp(GiveUp),
}
