//! Why what is asked for is refused.

use monitor::RefusedEvent;
use run_notes::login_refusal_text;
use std::fmt;

/// Why what is asked for is refused.
#[derive(Drop)]
pub enum Refused<'a> {
    /// The program of a file cannot be logged in.
    Login(&'a str, RefusedEvent),
    /// There is no end of this number.
    NoEnd(usize),
    /// There is no order to be recorded.
    NoOrder,
}

impl fmt::Display for Refused<'_> {
    fn fmt<W: fmt::Write>(&self, f: &mut fmt::Formatter<W>) -> fmt::Result {
        match self {
            Refused::Login(file, refusal) => {
                let words = login_refusal_text(*refusal);
                write!(f, "{file}: {words}")
            }
            Refused::NoEnd(number) => write!(f, "orders: there is no end {number}"),
            Refused::NoOrder => f.write_str("orders: there is no order to record"),
        }
    }
}
