//! What the lock queue keeps along every script.
ghost use Rattle.script_laws.specs.Scripts.{FollowsTranscript, LinesKeepOwners, ScriptsAreSafe, ScriptsMakeNoPlainCircle};

/// The requests of the laws below are those with which a script's transcript goes on.
pub fn requests_are_those_of_the_transcript()
    ensures { FollowsTranscript }
{}

/// After every line of every script the requests are safe: an exclusive owner is alone, a pool is
/// never overdrawn, a request owns all of its locks or none, and nobody overtakes.
pub fn scripts_are_safe()
    ensures { ScriptsAreSafe }
{}

/// A job loses what it owns by no line but a FREE of that job or a DEQ of that job.
pub fn lines_keep_owners()
    ensures { LinesKeepOwners }
{}

/// After no line of any script is there a circle of plain jobs, which ask for one lock at a time, by
/// rising levels: a job that waits is BUSY, so it makes no call.
pub fn scripts_make_no_plain_circle()
    ensures { ScriptsMakeNoPlainCircle }
{}
