//! The service of `lockmon asm`: a source is assembled, and its listing written.
ghost use Rattle.std.specs.Prelude.{◌≡◌, ◌≤◌, ◌^◌, false, IfErr};
ghost use Rattle.script_io.specs.Serves.{Serves, Blames};
ghost use Rattle.script_io.specs.Endings.{served_as};
ghost use Rattle.asm_script.specs.Listings.{listing};

use crate::listings::{push_asm_fault, push_image, source_ending};
use mac_asm::{AsmError, assemble};
use script_io::{ByteIn, ByteOut, Ending, ServeError, TextService, TextSession, serve_script};
use std::alloc::{AllocError, Global};

/// The assembler, as a service of texts.
#[derive(Drop)]
struct Assembler {
    alloc: Global,
}

impl TextService for Assembler {
    type Ending = Ending;

    ghost transcript = { λ s source. listing source };

    #[tactic(auto, unfolding(crate::specs::Listings::listing))]
    fn take_text(&mut self, source: &[u8], out: &mut Vec<u8>) -> Result<Ending, AllocError> {
        match assemble(self.alloc, source) {
            Ok(image) => {
                push_image(out, &image)?;
                Ok(Ending::Done)
            }
            Err(AsmError::Line { line, code }) => {
                push_asm_fault(out, line, code)?;
                Ok(source_ending(0, line, code))
            }
            Err(AsmError::Memory) => Err(AllocError),
        }
    }
}

/// Serves a source in the assembler's language: reads all of it, and writes its words with their addresses in octal, a line
/// each by rising address, and then its start. For a source without an image it writes `?ASM line code`, and the answer is
/// Source (this project's profile).
pub fn serve_asm<R: ByteIn, W: ByteOut>(
    alloc: Global,
    reader: &mut R,
    writer: &mut W,
) -> Result<(), ServeError>
    requires reader_sound { R.has_failed reader.old ≡ false }
    requires writer_sound { W.has_failed writer.old ≡ false }
    requires few { R.reads_left reader.old ≤ 2 ^ 63 }
    ensures serves { Serves listing (R.to_come reader.old) (R.to_come reader.new)
        (W.written writer.old) (W.written writer.new) (served_as result) }
    ensures blames { IfErr (served_as result) (λ e. Blames e (R.has_failed reader.new) (W.has_failed writer.new)) }
{
    let mut session = TextSession::new(alloc, Assembler { alloc });
    serve_script(alloc, &mut session, reader, writer)
}
