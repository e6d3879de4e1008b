//! The grammar read back. Each function does nothing: its contract is the law.

ghost use Rattle.std.specs.Prelude.{◌≡◌, ◌<◌, ◌≤◌, ◌+◌, ◌∷◌, ◌++◌};
ghost use Rattle.std.specs.Prelude.{[], ℕ, List, Some, None, Ok, Err, true, length};
ghost use Rattle.mac_text.specs.Lines.{line_of, program_of, is_end};
ghost use Rattle.mac_text.specs.Written.{IsLine, LineText, line_given, line_text};
ghost use Rattle.mac_text.specs.WrittenExample.{IsExampleWritten};
ghost use Rattle.mac_text.specs.WrittenSource.{GoOn, IsOneLine, LineEnd, SourceLine, end_before, radix_behind, source_before};
ghost use Rattle.mac_text.specs.WrittenSource.{source_given, source_line_given, source_line_text};

/// Each line is read as it is written, with any blanks wherever blanks may stand: labels, every form of statement, literals,
/// and a comment.
#[tactic(auto, using(crate::proofs::WrittenLines::line_read))]
pub fn written_lines_are_read()
    ensures { (radix : ℕ) (line : LineText radix) → radix ≤ 10 → IsLine line
        → line_of radix (line_text line) ≡ Some (line_given line) }
{}

/// A line with a label, an accumulator, an indirect and indexed sum, a literal and a comment is written so.
#[tactic(auto, using(crate::proofs::WrittenExampleLemmas::example_is_written))]
pub fn an_example_is_written()
    ensures { IsExampleWritten }
{}

/// A source is read as its lines are written, each in the radix that those before it leave: lines with their ends alone, or
/// with a last line that has no end, or with END, behind which anything may stand. The first line that is not in the grammar
/// is reported by its number.
#[tactic(auto, using(crate::proofs::WrittenSources::written_sources_read))]
pub fn written_sources_are_read()
    ensures whole { (lines : List SourceLine) → GoOn 8 lines → program_of (source_before lines []) ≡ Ok (source_given lines) }
    ensures unended { (lines : List SourceLine) (last : SourceLine) → GoOn 8 lines → last.radix ≡ radix_behind 8 lines
        → 0 < length (source_line_text last)
        → program_of (source_before lines (source_line_text last)) ≡ Ok (source_given lines ++ source_line_given last ∷ []) }
    ensures ended { (lines : List SourceLine) (last : SourceLine) (rest : List ℕ) → GoOn 8 lines → last.radix ≡ radix_behind 8 lines
        → is_end (source_line_given last) ≡ true
        → program_of (source_before lines (source_line_text last ++ end_before last.end rest))
        ≡ Ok (source_given lines ++ source_line_given last ∷ []) }
    ensures refused { (lines : List SourceLine) (text : List ℕ) (end : LineEnd) (rest : List ℕ) → GoOn 8 lines → IsOneLine text
        → line_of (radix_behind 8 lines) text ≡ None
        → program_of (source_before lines (text ++ end_before end rest)) ≡ Err (length lines + 1) }
{}
