//! Ports, the loop that serves a script of any language, and what the languages share.
#![tactic(auto)]

mod endings;
mod failures;
mod host_fault;
mod host_ports;
mod hosts;
mod line_forms;
mod line_sessions;
mod numbers;
mod parts;
mod ports;
mod print;
mod serving;
mod sessions;
mod text_sessions;

pub use endings::{Ending, ServeError, SourceFault, push_fault, serve_script};
pub use failures::ServeFailure;
pub use host_fault::HostFault;
pub use host_ports::{HostIn, HostOut};
pub use hosts::{ReadOnce, StdReader, StdWriter, WriteOnce};
pub use line_forms::{is_allowed, is_silent, without_return};
pub use line_sessions::{LINE_LENGTH, LineService, LineSession};
pub use numbers::{digit_number, number};
pub use parts::Parts;
pub use ports::{ByteIn, ByteOut, Failed, write_all};
pub use print::{half_digits, push_decimal, push_escaped, push_word};
pub use serving::serve_session;
pub use sessions::Session;
pub use text_sessions::{TextService, TextSession};
