//! The longest chains that are followed (this project's profile).

/// The most indirect words of one address.
pub const MOST_LINKS: u32 = 256;

/// The most XCTs of one instruction.
pub const MOST_EXECUTES: u32 = 256;
