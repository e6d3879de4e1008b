//! The operations and calls in an image that are not here.
ghost use Rattle.std.specs.Prelude.{◌≡◌, ◌<◌, ◌^◌, ◌++◌, OnOk};
ghost use Rattle.ka_cpu.specs.Exec.{is_listed};
ghost use Rattle.uuo_calls.specs.Services.{service_of};
ghost use Rattle.image_service.specs.NotHere.{is_call, is_left_out, is_not_here, is_unlisted, is_unlisted_call, kind_text, mark_text, named_text};

use ka_isa::{Family, Fields, classify, decode};
use ka_state::{Accumulator, CallKind};
use left_out::name_of;
use std::alloc::AllocError;
use uuo_calls::{Service, service_of};
use word36::{Address, Word};

/// Whether the processor has the operations of a family with this AC field.
fn is_listed(family: Family, ac: u8) -> bool
    ensures { result ≡ is_listed family ac }
{
    match family {
        Family::Other => false,
        Family::Jrst => ac == 0 || ac == 2 || ac == 4,
        _ => true,
    }
}

/// Whether the monitor has not the call of an AC field and an E.
fn is_unlisted(kind: CallKind, ac: u8, e: u32) -> bool
    requires ac { ac < 16 }
    requires e { e < 2 ^ 18 }
    ensures { result ≡ is_unlisted (service_of kind ac e) }
{
    matches!(
        service_of(kind, Accumulator::new(ac), Address::new(e)),
        Service::Unlisted
    )
}

/// Whether a word shows by its fields that the monitor has not its call.
fn is_unlisted_call(family: Family, fields: Fields) -> bool
    requires ac { fields.ac < 16 }
    requires y { fields.y < 2 ^ 18 }
    ensures { result ≡ is_unlisted_call family fields }
{
    match family {
        Family::Calli => {
            !fields.i && fields.x == 0 && is_unlisted(CallKind::Calli, fields.ac, fields.y)
        }
        Family::Ttcall => is_unlisted(CallKind::Ttcall, fields.ac, fields.y),
        _ => false,
    }
}

/// Whether a word is an operation or a call of a user's program, and the machine refuses it as an instruction, whatever the
/// registers and the memory hold.
#[tactic(auto, unfolding(crate::specs::NotHere::is_not_here))]
fn is_not_here(word: Word) -> bool
    ensures { result ≡ is_not_here word }
{
    let fields = decode(word);
    if fields.op == 0 || fields.op >= 0o700 {
        return false;
    }
    let family = classify(fields.op);
    !is_listed(family, fields.ac) || is_unlisted_call(family, fields)
}

/// Whether an operation is a call of the monitor, or else one of the processor, in the words for that.
fn kind_text(op: u16) -> &'static [u8]
    ensures { result.now ≡ kind_text (is_call op) }
{
    if 0o40 <= op && op < 0o100 {
        b" ; call not here"
    } else {
        b" ; operation not here"
    }
}

/// Adds a colon and a name, if there is one.
fn push_named(out: &mut Vec<u8>, name: &str) -> Result<(), AllocError>
    ensures { OnOk result (out.new.items ≡ out.old.items ++ named_text name.now) }
{
    if name.is_empty() {
        return Ok(());
    }
    out.extend_from_slice(b": ")?;
    out.extend_from_slice(name.as_bytes())?;
    Ok(())
}

/// Adds what is said after a word: nothing, or that it is not here, and the name that the manuals give it.
#[tactic(auto, using(std::proofs::Common::append_assoc))]
pub fn push_mark(out: &mut Vec<u8>, word: Word) -> Result<(), AllocError>
    ensures { OnOk result (out.new.items ≡ out.old.items ++ mark_text word) }
{
    if !is_not_here(word) {
        return Ok(());
    }
    let fields = decode(word);
    out.extend_from_slice(kind_text(fields.op))?;
    push_named(out, name_of(fields.op, fields.ac, fields.y))
}
