//! Why a lock call is refused.
ghost use Rattle.std.specs.Prelude.{◌≡◌};
ghost use Rattle.lock_queue.specs.Refusals.{code_of};

/// Why a lock call is refused, in the order of the codes (this project's profile).
#[derive(Clone, Copy, Debug, PartialEq, Eq)]
pub enum Refusal {
    /// 1: the request is not granted at once.
    NotGranted,
    /// 2: no such function.
    NoFunction,
    /// 3: the call's block does not lie in the job's memory, or its head is wrong.
    BadBlock,
    /// 4: no lock, or more than 16.
    BadCount,
    /// 5: neither a user code nor a pointer to a name, or the name does not lie in memory.
    BadPointer,
    /// 6: an empty name, or one of more than 30 characters.
    BadName,
    /// 7: no such qualifier.
    BadQualifier,
    /// 8: a pool of no size, an amount of 0 or above the size, a pool that is shared, or a group other
    /// than 0 of a lock that is not shared.
    BadPool,
    /// 9: a present want of the key has another level, or another pool.
    Differs,
    /// 10: a level that is not above those of the job's wants before it.
    LevelOrder,
    /// 11: the key is named already, by the call or by the job's requests.
    NamedAlready,
    /// 12: the job has no such want or request.
    NotPresent,
    /// 13: the change would take a grant away.
    WouldLose,
    /// 14: the queue holds as many requests as it can.
    QueueFull,
    /// 15: the job has no interrupt vector.
    NoVector,
    /// 16: the job has as many requests as it may have.
    OverQuota,
    /// 17: the request was not granted within its limit of time.
    TimedOut,
    /// 18: the job whose quota is asked for is not there, or the quota would become greater.
    NoSuchQuota,
}

impl Refusal {
    /// The code, 1 to 18, that a refused call leaves in the accumulator.
    pub fn code(self) -> u8
        ensures { result ≡ code_of self }
    {
        match self {
            Refusal::NotGranted => 1,
            Refusal::NoFunction => 2,
            Refusal::BadBlock => 3,
            Refusal::BadCount => 4,
            Refusal::BadPointer => 5,
            Refusal::BadName => 6,
            Refusal::BadQualifier => 7,
            Refusal::BadPool => 8,
            Refusal::Differs => 9,
            Refusal::LevelOrder => 10,
            Refusal::NamedAlready => 11,
            Refusal::NotPresent => 12,
            Refusal::WouldLose => 13,
            Refusal::QueueFull => 14,
            Refusal::NoVector => 15,
            Refusal::OverQuota => 16,
            Refusal::TimedOut => 17,
            Refusal::NoSuchQuota => 18,
        }
    }
}
