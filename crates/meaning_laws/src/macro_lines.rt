//! Laws on the lines that `macro` writes. The functions do nothing: their contracts are the laws.
ghost use Rattle.std.specs.Prelude.{ℕ, List};
ghost use Rattle.macro_expressions.specs.Values.{Scope};
ghost use Rattle.macro_meaning.specs.Meaning.{Walk};
ghost use Rattle.meaning_laws.specs.Written.{NumbersAreTaken, WordsArePut};

/// A line of a word in octal means that word at the place that is next, by any meaning of names.
#[tactic(auto, using(crate::proofs::WrittenWords::word_is_put))]
pub fn written_words_are_put()
    ensures { WordsArePut }
{}

/// Behind their names LOC, BLOCK and END take the number in octal that is written there.
#[tactic(auto, using(crate::proofs::WrittenNumbers::numbers_taken))]
pub fn written_numbers_are_taken()
    ensures { (scope : Scope) (w : Walk) (n : ℕ) (rest : List ℕ) → NumbersAreTaken scope w n rest }
{}
