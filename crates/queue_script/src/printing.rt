//! The lines that commands on the lock queue write.
ghost use Rattle.std.specs.Prelude.{◌≡◌, ◌++◌, [], if◌then◌else◌, OnOk};
ghost use Rattle.std.specs.List.{flat_map};
ghost use Rattle.queue_script.specs.Printing.{code_line, reply_line, grant_line, status_line, name_character};
ghost use Rattle.queue_script.specs.Printing.{name_text, group_text, level_text};
ghost use Rattle.queue_script.specs.Printing.{pool_text, scope_text, want_text, kind_number, wants_text, request_line};

use crate::locks::is_name_character;
use lock_queue::{
    EnqueueKind, Grant, Group, Level, LockReply, Name, Pool, Refusal, Request, Scope, Status, Want,
};
use script_io::{push_decimal, push_escaped, push_word};
use std::alloc::AllocError;
use word36::octal_text;

/// Adds `CODE n`, where n is from 1 to 18.
pub fn push_code(out: &mut Vec<u8>, refusal: Refusal) -> Result<(), AllocError>
    ensures { OnOk result (out.new.items ≡ out.old.items ++ code_line refusal) }
{
    let code = refusal.code();
    if code < 10 {
        out.extend_from_slice(&[b'C', b'O', b'D', b'E', b' ', b'0' + code, b'\n'])?;
    } else {
        out.extend_from_slice(&[
            b'C',
            b'O',
            b'D',
            b'E',
            b' ',
            b'1',
            b'0' + (code - 10),
            b'\n',
        ])?;
    }
    Ok(())
}

/// Adds the line of a call's answer.
pub fn push_reply(out: &mut Vec<u8>, reply: LockReply) -> Result<(), AllocError>
    ensures { OnOk result (out.new.items ≡ out.old.items ++ reply_line reply) }
{
    match reply {
        LockReply::Granted | LockReply::Done => {
            out.extend_from_slice(b"OK\n")?;
            Ok(())
        }
        LockReply::Queued => {
            out.extend_from_slice(b"WAIT\n")?;
            Ok(())
        }
        LockReply::Refused(refusal) => push_code(out, refusal),
    }
}

/// Adds `GRANT j id`.
#[tactic(auto, using(std::proofs::Common::append_assoc))]
pub fn push_grant(out: &mut Vec<u8>, grant: Grant) -> Result<(), AllocError>
    ensures { OnOk result (out.new.items ≡ out.old.items ++ grant_line grant) }
{
    out.extend_from_slice(b"GRANT ")?;
    push_decimal(out, grant.job)?;
    out.push(b' ')?;
    push_decimal(out, grant.id.number())?;
    out.push(b'\n')?;
    Ok(())
}

/// Adds the lines of the grants that a call made.
#[inline(always)]
pub fn push_grants(out: &mut Vec<u8>, grants: &[Grant]) -> Result<(), AllocError>
    ensures { OnOk result (out.new.items ≡ out.old.items ++ flat_map grant_line grants.now) }
{
    for grant in grants {
        push_grant(out, *grant)?;
    }
    Ok(())
}

/// Adds the line of a status, three words.
#[tactic(auto, using(std::proofs::Common::append_assoc))]
pub fn push_status(out: &mut Vec<u8>, status: &Status) -> Result<(), AllocError>
    ensures { OnOk result (out.new.items ≡ out.old.items ++ status_line status.now) }
{
    let [owner, count, amount] = status.words();
    push_word(out, owner)?;
    out.push(b' ')?;
    push_word(out, count)?;
    out.push(b' ')?;
    push_word(out, amount)?;
    out.push(b'\n')?;
    Ok(())
}

/// Adds a character of a name.
fn push_character(out: &mut Vec<u8>, character: u8) -> Result<(), AllocError>
    ensures { OnOk result (out.new.items ≡ out.old.items ++ name_character character) }
{
    if is_name_character(character) {
        out.push(character)?;
        return Ok(());
    }
    push_escaped(out, character)
}

/// Adds the characters of a name.
fn push_characters(out: &mut Vec<u8>, text: &[u8]) -> Result<(), AllocError>
    ensures { OnOk result (out.new.items ≡ out.old.items ++ flat_map name_character text.now) }
{
    for character in text {
        push_character(out, *character)?;
    }
    Ok(())
}

/// Adds a name.
#[tactic(auto, using(std::proofs::Common::append_assoc))]
fn push_name(out: &mut Vec<u8>, name: &Name) -> Result<(), AllocError>
    ensures { OnOk result (out.new.items ≡ out.old.items ++ name_text name.now) }
{
    match name {
        Name::Text(text) => push_characters(out, text.as_str().as_bytes()),
        Name::Code(code) => {
            out.push(b'#')?;
            let digits = octal_text(code.number());
            out.extend_from_slice(digits.as_str().as_bytes())?;
            Ok(())
        }
    }
}

/// Adds a group that is not 0.
#[tactic(auto, using(std::proofs::Common::append_assoc))]
fn push_group(out: &mut Vec<u8>, group: Group) -> Result<(), AllocError>
    ensures { OnOk result (out.new.items ≡ out.old.items ++ group_text group) }
{
    if group.number() == 0 {
        return Ok(());
    }
    out.extend_from_slice(b"/G")?;
    push_decimal(out, group.number())?;
    Ok(())
}

/// Adds a level that is not 0.
#[tactic(auto, using(std::proofs::Common::append_assoc))]
fn push_level(out: &mut Vec<u8>, level: Level) -> Result<(), AllocError>
    ensures { OnOk result (out.new.items ≡ out.old.items ++ level_text level) }
{
    if level.number() == 0 {
        return Ok(());
    }
    out.extend_from_slice(b"/L")?;
    push_decimal(out, level.number())?;
    Ok(())
}

/// Adds a pool, if there is one.
#[tactic(auto, using(std::proofs::Common::append_assoc))]
fn push_pool(out: &mut Vec<u8>, pool: Option<Pool>) -> Result<(), AllocError>
    ensures { OnOk result (out.new.items ≡ out.old.items ++ pool_text pool) }
{
    match pool {
        None => Ok(()),
        Some(pool) => {
            out.extend_from_slice(b"/P")?;
            push_decimal(out, pool.size())?;
            out.push(b':')?;
            push_decimal(out, pool.amount())?;
            Ok(())
        }
    }
}

/// Adds that a name is a job's own.
fn push_scope(out: &mut Vec<u8>, scope: Scope) -> Result<(), AllocError>
    ensures { OnOk result (out.new.items ≡ out.old.items ++ scope_text scope) }
{
    match scope {
        Scope::All => Ok(()),
        Scope::Job(_) => {
            out.extend_from_slice(b"/J")?;
            Ok(())
        }
    }
}

/// Adds an option without a number.
fn push_flag(out: &mut Vec<u8>, flag: bool, text: &[u8]) -> Result<(), AllocError>
    ensures { OnOk result (out.new.items ≡ out.old.items ++ (if flag then text.now else [])) }
{
    if flag {
        out.extend_from_slice(text)?;
    }
    Ok(())
}

/// Adds a lock of a request.
#[tactic(auto, using(std::proofs::Common::append_assoc))]
fn push_want(out: &mut Vec<u8>, want: &Want) -> Result<(), AllocError>
    ensures { OnOk result (out.new.items ≡ out.old.items ++ want_text want.now) }
{
    push_name(out, &want.key.name)?;
    push_flag(out, want.shared, b"/S")?;
    push_group(out, want.group)?;
    push_flag(out, want.bypass, b"/B")?;
    push_level(out, want.level)?;
    push_pool(out, want.pool)?;
    push_scope(out, want.key.scope)?;
    Ok(())
}

/// Adds the locks of a request.
fn push_wants(out: &mut Vec<u8>, wants: &[Want]) -> Result<(), AllocError>
    ensures { OnOk result (out.new.items ≡ out.old.items ++ wants_text wants.now) }
{
    for want in wants {
        out.push(b' ')?;
        push_want(out, want)?;
    }
    Ok(())
}

/// The number of a request's kind.
fn kind_number(kind: EnqueueKind) -> u8
    ensures { result ≡ kind_number kind }
{
    match kind {
        EnqueueKind::Blocking => 0,
        EnqueueKind::AtOnce => 1,
        EnqueueKind::Interrupt => 2,
    }
}

/// Adds the line of a request.
#[tactic(auto, using(std::proofs::Common::append_assoc))]
pub fn push_request(out: &mut Vec<u8>, request: &Request, granted: bool) -> Result<(), AllocError>
    ensures { OnOk result (out.new.items ≡ out.old.items ++ request_line granted request.now) }
{
    push_decimal(out, request.job)?;
    out.push(b' ')?;
    push_decimal(out, kind_number(request.kind))?;
    out.push(b' ')?;
    push_decimal(out, request.id.number())?;
    let state = if granted { " OWN" } else { " WAIT" };
    out.extend_from_slice(state.as_bytes())?;
    push_wants(out, request.wants.as_slice())?;
    out.push(b'\n')?;
    Ok(())
}
