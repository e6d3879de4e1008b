//! A file that is written whole or not at all.

use std::alloc::Global;
use std::fs::{self, File, OpenFile, OpenOptions, Permissions};
use std::io::{self, ErrorKind, Write};
use std::rt::Files;

/// So many names are tried for a new file.
const MOST_NAMES: u8 = 100;

/// A new file beside another one.
#[derive(Drop)]
struct NewFile<T> {
    name: String,
    opened: T,
}

/// Makes a new file beside one: `FILE.0.part`, or the next that is not there.
fn make_beside<F: Files>(rt: &F, alloc: Global, file: &str) -> io::Result<NewFile<F::File>> {
    for number in 0..MOST_NAMES {
        let name = format!(in alloc; "{file}.{number}.part")?;
        match File::create_new(rt, name.as_str()) {
            Ok(opened) => return Ok(NewFile { name, opened }),
            Err(error) if error.kind() == ErrorKind::AlreadyExists => {}
            Err(error) => return Err(error),
        }
    }
    Err(io::Error::from(ErrorKind::AlreadyExists))
}

/// Writes all of these bytes to a new file, which may be used as another one, if that is there.
fn fill<T: Write + OpenFile>(
    opened: &mut T,
    permissions: Option<Permissions>,
    bytes: &[u8],
) -> io::Result<()> {
    if let Some(permissions) = permissions {
        opened.set_permissions(permissions)?;
    }
    opened.write_all(bytes)
}

/// Writes bytes to a new file, which then takes the place of a file with these permissions, or of none.
fn replace<F: Files>(
    rt: &F,
    alloc: Global,
    file: &str,
    permissions: Option<Permissions>,
    bytes: &[u8],
) -> io::Result<()> {
    let mut new = make_beside(rt, alloc, file)?;
    let written = match fill(&mut new.opened, permissions, bytes) {
        Ok(()) => fs::rename(rt, new.name.as_str(), file),
        Err(error) => Err(error),
    };
    if written.is_err() {
        let _ = fs::remove_file(rt, new.name.as_str());
    }
    written
}

/// Writes bytes to a file, in place of what it had: they are written to a new file beside it, which takes its place once all of
/// them are there. Where that fails, the file stays as it was. What is no plain file (a device, a pipe, a link) is written to as
/// it stands.
pub fn write_whole<F: Files + AllocGlobal>(rt: &F, file: &str, bytes: &[u8]) -> io::Result<()> {
    match fs::symlink_metadata(rt, file) {
        Ok(there) if there.is_file() => {
            // what nobody may write to is not replaced
            let _ = OpenOptions::new().write(true).open(rt, file)?;
            replace(rt, rt.alloc(), file, Some(there.permissions()), bytes)
        }
        Ok(_) => fs::write(rt, file, bytes),
        Err(_) => replace(rt, rt.alloc(), file, None, bytes),
    }
}
