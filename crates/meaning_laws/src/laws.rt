//! Laws on sources. The functions do nothing: their contracts are the laws.
ghost use Rattle.std.specs.Prelude.{[]};
ghost use Rattle.meaning_laws.specs.Example.{Leaves, example_source, example_table, example_words};
ghost use Rattle.meaning_laws.specs.Example.{rounds_source, rounds_table, rounds_words, stopped_source, stopped_words};

/// A source in which a macro is called, a text is repeated and a condition holds is judged, and has the words that were worked out
/// by hand.
pub fn example_is_meant()
    ensures { Leaves example_table [] example_source example_words 0o140 }
{}

/// A source with the rounds of IRP, a default and a name that is made is judged, and has the words that were worked out by hand.
pub fn rounds_are_meant()
    ensures { Leaves rounds_table [] rounds_source rounds_words 0o140 }
{}

/// A source with rounds of IRPC that STOPI ends is judged, and has the words that were worked out by hand.
pub fn stopped_rounds_are_meant()
    ensures { Leaves [] [] stopped_source stopped_words 0o140 }
{}
