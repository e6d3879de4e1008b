//! Laws of the calls. Each function does nothing: its contract is a law.

ghost use Rattle.uuo_calls.specs.Laws.{CoreAnswersFreeBlocks, EmptyStepsWait, MstimeAnswersMilliseconds, OthersAreSpared};
ghost use Rattle.uuo_calls.specs.Laws.{RefusalsChangeAcAlone, TextsGoWhole};

/// An empty step changes nothing, except that the job's PC is back at the call and the job waits for its
/// line.
pub fn empty_steps_wait()
    ensures { EmptyStepsWait }
{}

/// OUTSTR puts out a whole text or nothing.
pub fn texts_go_whole()
    ensures { TextsGoWhole }
{}

/// CORE answers how many blocks are free, granted or not.
pub fn core_answers_free_blocks()
    ensures { CoreAnswersFreeBlocks }
{}

/// MSTIME answers the time of day in milliseconds: its ticks times 50, divided by 3.
pub fn mstime_answers_milliseconds()
    ensures { MstimeAnswersMilliseconds }
{}

/// A call that skips where it is done either skips, or changes its AC alone, or is an ENQ. 2 whose request
/// stays.
pub fn refusals_change_ac_alone()
    ensures { RefusalsChangeAcAlone }
{}

/// No call changes another job, its core or its line.
pub fn others_are_spared()
    ensures { OthersAreSpared }
{}
