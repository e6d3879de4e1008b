//! What a source shows.

/// What a source shows, and how.
#[derive(Clone, Copy, Debug, PartialEq, Eq)]
pub struct Shown {
    /// Labels at the addresses that the image refers to.
    pub labels: bool,
    /// A comment behind each line: its address, the first word there in octal, and its characters.
    pub comments: bool,
    /// `BLOCK n` in place of n lines, where n words of 0 stand one behind the other.
    pub blocks: bool,
    /// `ASCIZ /text/` in place of the words of a text of four or more printing characters with a zero
    /// character behind it.
    pub texts: bool,
}
