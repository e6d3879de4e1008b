//! Symbols.

/// A symbol as it was defined last.
#[derive(Clone, Copy)]
pub struct Defined {
    /// Its value.
    pub value: i64,
    /// Whether it is a label.
    pub is_label: bool,
}
