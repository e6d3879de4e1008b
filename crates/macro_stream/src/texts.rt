//! Texts: ranges of a storage of characters and marks.

ghost use Rattle.std.specs.Prelude.{◌≡◌, ◌<◌, ◌≤◌, ◌↔◌, Some, None, IsTrue, nat_eq, nat_lt, if◌then◌else◌};
ghost use Rattle.macro_stream.specs.Standing.{item_of, ends_with_line, no_range};

use std::alloc::AllocError;

/// A character below 256, or from `MARK` on the mark of a dummy.
pub type Item = u32;

/// The mark of the first dummy.
pub const MARK: Item = 256;

/// A text: the items from `start` to before `end`.
#[derive(Clone, Copy)]
pub struct Range {
    /// The first item.
    pub start: usize,
    /// The item behind the last.
    pub end: usize,
}

impl Range {
    /// A text of nothing.
    pub fn empty() -> Range
        ensures { result ≡ no_range }
    {
        Range { start: 0, end: 0 }
    }

    /// Whether nothing is in it.
    pub fn is_empty(self) -> bool
        ensures { IsTrue result ↔ (self.end ≤ self.start) }
    {
        self.start >= self.end
    }
}

/// The item at a position of the storage; a line end where there is none.
pub fn item_at(items: &[Item], at: usize) -> Item
    ensures { result ≡ item_of items.now at }
{
    match items.get(at) {
        Some(item) => *item,
        None => Item::from(b'\n'),
    }
}

/// Whether this item is that character.
pub fn is_character(items: &[Item], at: usize, character: u8) -> bool
    ensures { result ≡ nat_eq (item_of items.now at) character }
{
    item_at(items, at) == Item::from(character)
}

/// The character of an item; a mark has none.
pub fn character_of(item: Item) -> Option<u8>
    ensures { result ≡ (if nat_lt item 256 then Some item else None) }
{
    if item < 256 { Some(item as u8) } else { None }
}

/// Whether a text ends with a line end.
pub fn ends_with_line(items: &[Item], range: Range) -> bool
    ensures { result ≡ ends_with_line items.now range }
{
    range.start < range.end && is_character(items, range.end - 1, b'\n')
}

/// Appends digits of a number in a radix, at least so many.
pub fn push_digits(
    items: &mut Vec<Item>,
    number: u64,
    radix: u8,
    least: usize,
) -> Result<(), AllocError> {
    let radix = u64::from(radix.max(2));
    let mut digits = [0u8; 64];
    let mut count = 0usize;
    let mut rest = number;
    for _ in 0..64 {
        if count < 64 && (rest > 0 || count < least) {
            digits[count] = (rest % radix & 15) as u8;
            rest /= radix;
            count += 1;
        }
    }
    for at in (0..count).rev() {
        if at < 64 {
            items.push(Item::from(digits[at]) + 48)?;
        }
    }
    Ok(())
}
