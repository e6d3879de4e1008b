//! Laws of the definitions. Each function does nothing: its contract is a law.
ghost use Rattle.call_block.specs.Laws.{AscizNamesAreRead, LocksAreReadInOrder};

/// A text of 1 to 30 characters that memory holds as ASCIZ is the name of the pointer `POINT 7,address`, also
/// where it runs over the last address into the registers.
pub fn asciz_names_are_read()
    ensures { AscizNamesAreRead }
{}

/// The wants of a block are those of its locks, one for one. A block with a wrong lock is refused for the
/// first wrong one.
pub fn locks_are_read_in_order()
    ensures { LocksAreReadInOrder }
{}
