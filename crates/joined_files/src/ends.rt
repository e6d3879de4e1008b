//! Where a source ends.

use script_io::Parts;

/// Whether a character is one of a name.
fn is_of_name(character: u8) -> bool {
    character.is_ascii_alphanumeric() || matches!(character, b'.' | b'$' | b'%')
}

/// Whether the statement of a line is END, behind its labels.
fn has_end(line: &[u8]) -> bool {
    let mut name = 0usize;
    let mut end = line.len();
    for (at, character) in line.iter().enumerate() {
        match *character {
            b' ' | b'\t' | b'\x0C' if name == at => name = at + 1,
            b':' if name < at => name = at + 1,
            other if is_of_name(other) => (),
            _ => {
                end = at;
                break;
            }
        }
    }
    let statement = line.get(name..end).unwrap_or(&[]);
    statement.eq_ignore_ascii_case(b"END")
}

/// The number of the line with END of a source of the subset; 0 where there is none.
pub fn end_line(source: &[u8]) -> usize {
    let mut lines = Parts::of(source, b'\n');
    for number in 1..usize::MAX {
        let Some(line) = lines.next() else {
            break;
        };
        if has_end(line) {
            return number;
        }
    }
    0
}
