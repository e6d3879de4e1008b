//! The laws of assembly. Each function does nothing: its contract is the law.
ghost use Rattle.std.specs.Prelude.{◌≡◌, ◌<◌, ◌^◌, ◌↔◌, ℕ, List, Some, Ok, Err, true};
ghost use Rattle.mac_text.specs.Lines.{program_of};
ghost use Rattle.mac_text.specs.declared.syntax.Line.{Line as LineView};
ghost use Rattle.mac_asm.specs.Assembly.{Assembled, IsAssembly};
ghost use Rattle.asm_laws.specs.Example.{example_image, example_source};
ghost use Rattle.asm_laws.specs.Found.{image_of};
ghost use Rattle.mac_layout.specs.Faults.{Fault};
ghost use Rattle.mac_asm.specs.Outcome.{has_end, outcome_of};
ghost use Rattle.mac_asm.specs.Symbols.{symbols_of};
ghost use Rattle.asm_laws.specs.Codes.{AgreesFromAbove, IsTold};
ghost use Rattle.asm_laws.specs.Faults.{TellsCode, TellsFault, TellsFirst, TellsReading};
ghost use Rattle.asm_laws.specs.Laws.{EarlierLabelsSettle, IsByAddress, IsReadBack, StatementsFillTheirAddresses, TakesItsAddresses};

/// A source has at most one image.
pub fn images_are_unique()
    ensures { (source : List ℕ) (a b : Assembled) → IsAssembly source a → IsAssembly source b → a ≡ b }
{}

/// `image_of` finds the image of each source that has one: the labels, collected from the first line on, are the one map that
/// satisfies all lines.
pub fn assemblies_are_found()
    ensures { (source : List ℕ) (image : Assembled) → IsAssembly source image ↔ (image_of source ≡ Some image) }
{}

/// The outcome of a source, worked out line by line with its faults, is an image exactly where the source has that image. So
/// the demands on each line in turn are those on all lines at once.
pub fn images_are_told()
    ensures { (source : List ℕ) (image : Assembled) → IsAssembly source image ↔ (outcome_of source ≡ Ok image) }
{}

/// The symbols of a source that has an image are the labels of the one map that satisfies all lines, in order of
/// definition.
pub fn symbols_are_labels()
    ensures { (source : List ℕ) (image : Assembled) (assembly : IsAssembly source image) → symbols_of source ≡ assembly.labels }
{}

/// A fault is reported only of a source without an image, and names a line of it.
pub fn faults_tell_lines()
    ensures { (source : List ℕ) (fault : Fault) → outcome_of source ≡ Err fault → TellsFault source fault }
{}

/// The codes for a line that is not in the grammar and for a missing END are reported exactly where that is so.
pub fn reading_is_told()
    ensures { (source : List ℕ) (line : ℕ) → TellsReading source line }
{}

/// Of lines that END ends, the first at fault is reported.
pub fn first_faults_are_told()
    ensures { (source : List ℕ) (read : List LineView) (fault : Fault) → program_of source ≡ Ok read → has_end read ≡ true
        → outcome_of source ≡ Err fault
        → TellsFirst read fault }
{}

/// Of lines that END ends, a fault is reported exactly where it names the first line that is wrong, given the lines above it,
/// with the least of its codes; or, if all lines can be laid out, the first whose values are not all known or do not fit.
/// Lines below that one change nothing.
pub fn least_codes_are_told()
    ensures { (source : List ℕ) (read : List LineView) (fault : Fault) → program_of source ≡ Ok read → has_end read ≡ true
        → (outcome_of source ≡ Err fault) ↔ IsTold read fault }
{}

/// If LOC and BLOCK have earlier labels alone, each line, seen with the labels above it, stands where the map of all labels
/// puts it; and a label is in the map exactly if a line has it.
pub fn lines_agree_from_above()
    ensures { (lines : List LineView) → AgreesFromAbove lines }
{}

/// What each code of a fault says of the lines.
pub fn codes_are_told()
    ensures { (source : List ℕ) (read : List LineView) (fault : Fault) → program_of source ≡ Ok read
        → outcome_of source ≡ Err fault
        → TellsCode read fault.code }
{}

/// The addresses of an image rise, and each has the word that the lines give it.
pub fn images_are_by_address()
    ensures { (source : List ℕ) (image : Assembled) (assembly : IsAssembly source image) → IsByAddress source image assembly }
{}

/// An expression of earlier labels alone has a value by those labels, and later labels do not change it; no other has one.
pub fn earlier_labels_settle()
    ensures { EarlierLabelsSettle }
{}

/// A statement takes as many addresses as it gives words.
pub fn statements_fill_their_addresses()
    ensures { StatementsFillTheirAddresses }
{}

/// The words of a source stand where the sizes of its statements put them; so the addresses that have words are known before
/// any word is.
pub fn words_take_their_addresses()
    ensures { (labels : List (ℕ × ℕ)) (lines : List LineView) (words : List (ℕ × ℕ)) → TakesItsAddresses labels lines words }
{}

/// A word that `ka_isa` prints, on a line of its own in radix 8, is a statement whose value is the word.
pub fn printed_words_are_read()
    ensures { (w : ℕ) → w < 2 ^ 36 → IsReadBack w }
{}

/// A source with a label that stands later, a literal, the point and a start has the image that was worked out by hand.
pub fn example_is_assembled()
    ensures { IsAssembly example_source example_image }
{}
