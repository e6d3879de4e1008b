//! The files that a program writes, by their names.
ghost use Rattle.std.specs.Prelude.{◌≡◌};
ghost use Rattle.program_shell.specs.Outputs.{ends_so, is_file_of, is_right_end, is_same_file, is_script_name, is_source_name, output_fault, plain_name};

use std::fmt;

/// How the name of a file ends that a program writes.
#[derive(Clone, Copy, Debug)]
pub enum NameEnd {
    /// With these characters.
    With(&'static str),
    /// Not as the name of a source, a script or a session.
    NoSource,
    /// Not as the name of a script or a session.
    NoScript,
}

impl NameEnd {
    /// The characters with which a name has to end: none where they are not given.
    pub fn characters(self) -> &'static str {
        match self {
            NameEnd::With(end) => end,
            NameEnd::NoSource | NameEnd::NoScript => "",
        }
    }
}

/// Why a file is none that a program may write.
#[derive(Clone, Copy, Debug)]
pub enum OutputFault {
    /// Its name does not end so.
    Ending(NameEnd),
    /// It is an input too.
    Input,
}

impl fmt::Display for OutputFault {
    fn fmt<W: fmt::Write>(&self, f: &mut fmt::Formatter<W>) -> fmt::Result {
        match self {
            OutputFault::Ending(NameEnd::With(end)) => {
                write!(f, "a name that ends in {end} is wanted")
            }
            OutputFault::Ending(NameEnd::NoSource) => {
                f.write_str("names in .mac, .run, .queue and .ddt are those of sources")
            }
            OutputFault::Ending(NameEnd::NoScript) => {
                f.write_str("names in .run, .queue and .ddt are those of scripts")
            }
            OutputFault::Input => f.write_str("this file is an input"),
        }
    }
}

/// A name without each `./` before it.
fn plain_name(name: &[u8]) -> &[u8]
    ensures { result.now ≡ plain_name name.now }
{
    let mut rest = name;
    while rest.len() >= 2 && rest[0] == b'.' && rest[1] == b'/' {
        rest = &rest[2..];
    }
    rest
}

/// Whether two names are the same but for `./` before them.
fn is_same_file(a: &str, b: &str) -> bool
    ensures { result ≡ is_same_file a.now b.now }
{
    plain_name(a.as_bytes()) == plain_name(b.as_bytes())
}

/// Whether one of these names is that of the file.
fn is_file_of(file: &str, files: &[&str]) -> bool
    ensures { result ≡ is_file_of file.now files.now }
{
    files.iter().any(|other| is_same_file(other, file))
}

/// Whether a name ends so, in letters of any case.
fn ends_so(name: &str, end: &str) -> bool
    ensures { result ≡ ends_so name.now end.now }
{
    let (name, end) = (name.as_bytes(), end.as_bytes());
    name[name.len().saturating_sub(end.len())..].eq_ignore_ascii_case(end)
}

/// Whether a name is one of a script of `lockmon` or a session of `ddt`.
fn is_script_name(name: &str) -> bool
    ensures { result ≡ is_script_name name.now }
{
    ends_so(name, ".run") || ends_so(name, ".queue") || ends_so(name, ".ddt")
}

/// Whether a name is one of a source, a script or a session.
fn is_source_name(name: &str) -> bool
    ensures { result ≡ is_source_name name.now }
{
    ends_so(name, ".mac") || is_script_name(name)
}

/// Whether a name ends as it has to.
fn is_right_end(end: NameEnd, name: &str) -> bool
    ensures { result ≡ is_right_end end name.now }
{
    match end {
        NameEnd::With(end) => name.as_bytes().ends_with(end.as_bytes()),
        NameEnd::NoSource => !is_source_name(name),
        NameEnd::NoScript => !is_script_name(name),
    }
}

/// Why a file is none that a program with these inputs may write, if there is a reason by its name: this does not end as it
/// has to, or is that of an input.
pub fn output_fault(end: NameEnd, file: &str, inputs: &[&str]) -> Option<OutputFault>
    ensures { result ≡ output_fault end file.now inputs.now }
{
    if !is_right_end(end, file) {
        Some(OutputFault::Ending(end))
    } else if is_file_of(file, inputs) {
        Some(OutputFault::Input)
    } else {
        None
    }
}
