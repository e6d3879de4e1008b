//! Scripts served from any reader to any writer.
ghost use Rattle.std.specs.Prelude.{◌≡◌, ◌≢◌, ◌+◌, ◌*◌, ◌^◌, ◌<◌, ◌≤◌};
ghost use Rattle.std.specs.Prelude.{◌++◌, ◌⊎◌, ℕ, List, [], Ok, Err, true, false};
ghost use Rattle.std.specs.Prelude.{length, take, drop, MatchResult, OnOk, OnErr, IfOk, IfErr};
ghost use Rattle.std.specs.Io.KnownBytes.{Appends, IsAtEnd};
ghost use Rattle.script_io.specs.Transcripts.{after};
ghost use Rattle.script_io.specs.Serves.{Serves, Goes, Stops, Sends, Cuts, Blames};

use crate::failures::ServeFailure;
use crate::ports::{ByteIn, ByteOut, write_all};
use crate::sessions::Session;
use std::alloc::Global;

/// How many bytes are read at once, at most.
const PIECE: usize = 16384;

/// The most bytes of output that are kept before they are written, but for what one step of the session adds.
const KEPT_BACK: usize = 65536;

/// Writes the output that was kept.
fn flush<W: ByteOut>(writer: &mut W, out: &mut Vec<u8>) -> Result<(), ServeFailure>
    requires sound { W.has_failed writer.old ≡ false }
    ensures written { OnOk result (Appends (W.written writer.old) (W.written writer.new) out.old.items) }
    ensures sound { OnOk result ((W.has_failed writer.new ≡ false) × (out.new.items ≡ [])) }
    ensures cut { OnErr result ((n : ℕ) × Appends (W.written writer.old) (W.written writer.new) (take n out.old.items)) }
    ensures failed { IfErr result (λ e. (W.has_failed writer.new ≡ true) × (e ≡ ServeFailure.Write)) }
{
    match write_all(writer, out.as_slice()) {
        Ok(()) => {
            out.clear();
            Ok(())
        }
        Err(_) => Err(ServeFailure::Write),
    }
}

/// Feeds a beginning of the bytes to the session, and writes the kept output once it is large. Returns how many bytes the
/// session took.
fn serve_front<S: Session, W: ByteOut>(
    session: &mut S,
    bytes: &[u8],
    writer: &mut W,
    out: &mut Vec<u8>,
) -> Result<usize, ServeFailure>
    requires sound { W.has_failed writer.old ≡ false }
    requires some { 0 < length bytes.now }
    requires room { S.count session.old + length bytes.now < 2 ^ 128 }
    ensures taken { IfOk result (λ n. (0 < n) × (n ≤ length bytes.now)) }
    ensures count { IfOk result (λ n. S.count session.new ≤ S.count session.old + n) }
    ensures sends { IfOk result (λ n. Sends (W.written writer.old) (W.written writer.new)
        (λ more. after out.old.items (S.follow session.old (bytes.now ++ more)))
        (λ more. after out.new.items (S.follow session.new (drop n bytes.now ++ more)))) }
    ensures sound { OnOk result (W.has_failed writer.new ≡ false) }
    ensures cuts { OnErr result (Cuts (W.written writer.old) (W.written writer.new)
        (λ more. after out.old.items (S.follow session.old (bytes.now ++ more)))) }
    ensures blames { IfErr result (λ e. Blames e false (W.has_failed writer.new)) }
{
    let count = match session.feed(bytes, out) {
        Ok(count) => count,
        Err(_) => return Err(ServeFailure::Memory),
    };
    if out.len() >= KEPT_BACK {
        match flush(writer, out) {
            Ok(()) => {}
            Err(error) => return Err(error),
        }
    }
    Ok(count)
}

/// Feeds the bytes of a piece to the session, and writes its output.
fn serve_piece<S: Session, W: ByteOut>(
    session: &mut S,
    piece: &[u8],
    writer: &mut W,
    out: &mut Vec<u8>,
) -> Result<(), ServeFailure>
    requires sound { W.has_failed writer.old ≡ false }
    requires room { S.count session.old + length piece.now < 2 ^ 128 }
    requires empty { out.old.items ≡ [] }
    ensures count { OnOk result (S.count session.new ≤ S.count session.old + length piece.now) }
    ensures sends { OnOk result (Sends (W.written writer.old) (W.written writer.new)
        (λ more. S.follow session.old (piece.now ++ more)) (S.follow session.new)) }
    ensures sound { OnOk result ((W.has_failed writer.new ≡ false) × (out.new.items ≡ [])) }
    ensures cuts { OnErr result (Cuts (W.written writer.old) (W.written writer.new)
        (λ more. S.follow session.old (piece.now ++ more))) }
    ensures blames { IfErr result (λ e. Blames e false (W.has_failed writer.new)) }
{
    let mut rest = piece;
    while !rest.is_empty() {
        match serve_front(session, rest, writer, out) {
            Ok(count) => rest = &rest[count..],
            Err(error) => return Err(error),
        }
    }
    flush(writer, out)
}

/// Reads one piece, feeds it to the session, and writes the output. True if the piece had bytes, false at the end of input.
fn serve_next<S: Session, R: ByteIn, W: ByteOut>(
    session: &mut S,
    reader: &mut R,
    writer: &mut W,
    piece: &mut [u8],
    out: &mut Vec<u8>,
) -> Result<bool, ServeFailure>
    requires reader_sound { R.has_failed reader.old ≡ false }
    requires writer_sound { W.has_failed writer.old ≡ false }
    requires room { S.count session.old + length piece.old < 2 ^ 128 }
    requires some { 0 < length piece.old }
    requires empty { out.old.items ≡ [] }
    requires goes_on { S.has_ended session.old ≡ false }
    ensures goes { OnOk result (Goes (R.to_come reader.old) (R.to_come reader.new) (W.written writer.old) (W.written writer.new)
        (S.follow session.old) (S.follow session.new)) }
    ensures end { IfOk result (λ came. came ≡ false → IsAtEnd (R.to_come reader.new)) }
    ensures sound { OnOk result ((R.has_failed reader.new ≡ false) × (W.has_failed writer.new ≡ false) × (out.new.items ≡ [])) }
    ensures count { OnOk result (S.count session.new ≤ S.count session.old + length piece.old) }
    ensures fewer { OnOk result (R.reads_left reader.new ≤ R.reads_left reader.old) }
    ensures falls { IfOk result (λ came. came ≡ true → R.reads_left reader.new < R.reads_left reader.old) }
    ensures stops { OnErr result (Stops (R.to_come reader.old) (R.to_come reader.new) (W.written writer.old) (W.written writer.new)
        (S.follow session.old)) }
    ensures blames { IfErr result (λ e. Blames e (R.has_failed reader.new) (W.has_failed writer.new)) }
{
    let Ok(count) = reader.read(piece) else {
        return Err(ServeFailure::Read);
    };
    if count == 0 {
        return Ok(false);
    }
    match serve_piece(session, &piece[..count], writer, out) {
        Ok(()) => Ok(true),
        Err(error) => Err(error),
    }
}

/// Serves pieces up to the end of the input or of the script.
fn serve_pieces<S: Session, R: ByteIn, W: ByteOut>(
    session: &mut S,
    reader: &mut R,
    writer: &mut W,
    out: &mut Vec<u8>,
) -> Result<(), ServeFailure>
    requires reader_sound { R.has_failed reader.old ≡ false }
    requires writer_sound { W.has_failed writer.old ≡ false }
    requires room { S.count session.old + 2 ^ 14 * (R.reads_left reader.old + 1) < 2 ^ 127 }
    requires empty { out.old.items ≡ [] }
    ensures goes { OnOk result (Goes (R.to_come reader.old) (R.to_come reader.new) (W.written writer.old) (W.written writer.new)
        (S.follow session.old) (S.follow session.new)) }
    ensures end { OnOk result (IsAtEnd (R.to_come reader.new) ⊎ (S.has_ended session.new ≡ true)) }
    ensures sound { OnOk result ((W.has_failed writer.new ≡ false) × (out.new.items ≡ []) × (S.count session.new < 2 ^ 127)) }
    ensures stops { OnErr result (Stops (R.to_come reader.old) (R.to_come reader.new) (W.written writer.old) (W.written writer.new)
        (S.follow session.old)) }
    ensures blames { IfErr result (λ e. Blames e (R.has_failed reader.new) (W.has_failed writer.new)) }
{
    let mut piece = [0u8; PIECE];
    'pieces: loop {
        if session.has_ended() {
            return Ok(());
        }
        match serve_next(session, reader, writer, &mut piece, out) {
            Ok(true) => {}
            Ok(false) => return Ok(()),
            Err(error) => return Err(error),
        }
    }
}

/// Serves a script of any language: reads its bytes, writes its transcript, and returns how the script ends. The output of a
/// command is written before the next read.
pub fn serve_session<S: Session, R: ByteIn, W: ByteOut>(
    alloc: Global,
    session: &mut S,
    reader: &mut R,
    writer: &mut W,
) -> Result<S::Ending, ServeFailure>
    requires reader_sound { R.has_failed reader.old ≡ false }
    requires writer_sound { W.has_failed writer.old ≡ false }
    requires few { R.reads_left reader.old ≤ 2 ^ 63 }
    requires fresh { S.count session.old ≡ 0 }
    ensures serves { Serves (S.follow session.old) (R.to_come reader.old) (R.to_come reader.new)
        (W.written writer.old) (W.written writer.new) result }
    ensures blames { IfErr result (λ e. Blames e (R.has_failed reader.new) (W.has_failed writer.new)) }
{
    let mut out = Vec::new(alloc);
    match serve_pieces(session, reader, writer, &mut out) {
        Ok(()) => {}
        Err(error) => return Err(error),
    }
    let ending = match session.finish(&mut out) {
        Ok(ending) => ending,
        Err(_) => return Err(ServeFailure::Memory),
    };
    match flush(writer, &mut out) {
        Ok(()) => Ok(ending),
        Err(error) => Err(error),
    }
}
