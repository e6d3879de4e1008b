//! The exit statuses that say what the search found. The others are those that every program has.

/// Some order leads to a circle.
pub const CIRCLE: u8 = 4;

/// No order leads to a circle, but one leaves jobs waiting.
pub const STUCK: u8 = 5;
