//! Laws of going back. The function does nothing: its contract is the laws.
ghost use Rattle.ddt_timeline.specs.Laws.{GoBackAndDoAgain, GoBackAndForward, OnePlace, SamePastSameMachine};

/// Go back and forward, and you are where you were; go back and do again what was done, and you are where you were. The machine
/// follows from what has happened, and so many steps have one place in a history.
pub fn going_back_loses_nothing()
    ensures forward { GoBackAndForward }
    ensures again { GoBackAndDoAgain }
    ensures machine { SamePastSameMachine }
    ensures place { OnePlace }
{}
