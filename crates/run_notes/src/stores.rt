//! What a step changed.
ghost use Rattle.std.specs.Prelude.{◌≡◌, ◌++◌, ◌<◌, OnOk, string_bytes};
ghost use Rattle.ka_isa.specs.Families.{family_of};
ghost use Rattle.ka_isa.specs.Fields.{fields_of};
ghost use Rattle.machine.specs.Views.{job_view, word_in};
ghost use Rattle.run_notes.specs.Steps.{beside_by, beside_words, block_of, block_words, changes_words, had_flags, is_word, new_flags};
ghost use Rattle.run_notes.specs.Steps.{new_word, operand_words, register_words, registers_words, same_flags, stored_words, there_words, word_words};

use crate::flag_names::FlagNames;
use crate::instructions::Reference;
use crate::snapshot::{Snapshot, address_of};
use crate::traced_job::TracedJob;
use concrete_machine::Machine;
use ka_isa::{Family, classify, decode};
use ka_state::Flags;
use std::alloc::AllocError;
use word36::Word;

/// The first of the two byte operations that store a byte, IDPB; the other is DPB, the next.
const IDPB: u16 = 0o136;

/// How many registers there are: the addresses below this one are theirs.
const REGISTERS: u32 = 16;

/// Adds the word that an address has now: `  WORD/ 000000,,000005`.
fn push_word(text: &mut String, job: &TracedJob, address: u32, word: Word) -> Result<(), AllocError>
    ensures { OnOk result (string_bytes text.new ≡ string_bytes text.old ++ word_words job.now.places address word) }
{
    let place = Reference {
        places: &job.places,
        address,
    };
    write!(text, "  {place}/ {word}")
}

/// Adds the word that an address has now, if it is legal.
fn push_there(
    text: &mut String,
    job: &TracedJob,
    address: u32,
    word: Option<Word>,
) -> Result<(), AllocError>
    ensures { OnOk result (string_bytes text.new ≡ string_bytes text.old ++ there_words job.now.places address word) }
{
    match word {
        Some(word) => push_word(text, job, address, word),
        None => Ok(()),
    }
}

/// Whether a word was this one.
fn is_word(word: Word, old: Option<Word>) -> bool
    ensures { result ≡ is_word word old }
{
    match old {
        Some(old) => old == word,
        None => false,
    }
}

/// Adds the word that an address has now, if it is another one than before.
fn push_new(
    text: &mut String,
    job: &TracedJob,
    address: u32,
    old: Option<Word>,
    new: Option<Word>,
) -> Result<(), AllocError>
    ensures { OnOk result (string_bytes text.new ≡ string_bytes text.old ++ new_word job.now.places address old new) }
{
    match new {
        Some(new) => {
            if is_word(new, old) {
                Ok(())
            } else {
                push_word(text, job, address, new)
            }
        }
        None => Ok(()),
    }
}

/// Adds a register, if it has another word now than before.
fn push_register(
    text: &mut String,
    machine: &Machine,
    number: u8,
    before: &Snapshot,
    register: u8,
) -> Result<(), AllocError>
    requires { register < 16 }
    ensures { OnOk result (string_bytes text.new ≡ string_bytes text.old ++ register_words machine.now.world number before.now register) }
{
    let old = before.registers[usize::from(register)];
    match machine.peek(number, u32::from(register)) {
        Some(new) => {
            if new == old {
                Ok(())
            } else {
                write!(text, "  {register:o}/ {new}")
            }
        }
        None => Ok(()),
    }
}

/// Adds the registers that a step changed.
#[tactic(auto, using(std::proofs::Common::append_assoc))]
fn push_registers(
    text: &mut String,
    machine: &Machine,
    job: &TracedJob,
    before: &Snapshot,
) -> Result<(), AllocError>
    ensures { OnOk result (string_bytes text.new ≡ string_bytes text.old ++ registers_words machine.now.world job.now.number before.now) }
{
    for register in 0..REGISTERS as u8 {
        push_register(text, machine, job.number, before, register)?;
    }
    Ok(())
}

/// Adds the word at the effective address, if a step changed it and it is no register.
fn push_operand(
    text: &mut String,
    machine: &Machine,
    job: &TracedJob,
    before: &Snapshot,
) -> Result<(), AllocError>
    ensures { OnOk result (string_bytes text.new
        ≡ string_bytes text.old ++ operand_words machine.now.world job.now.places job.now.number before.now) }
{
    let Some(address) = before.address else {
        return Ok(());
    };
    if address < REGISTERS {
        return Ok(());
    }
    push_new(
        text,
        job,
        address,
        before.operand,
        machine.peek(job.number, address),
    )
}

/// The address, beside the effective one, where an operation stored a word: the top of the list of PUSH and PUSHJ,
/// the word with the byte of IDPB and DPB.
fn address_beside(machine: &Machine, number: u8, before: &Snapshot) -> Option<u32>
    ensures { result ≡ beside_by machine.now.world number before.now (family_of (fields_of before.now.executed).op) }
{
    let fields = decode(before.executed);
    match classify(fields.op) {
        Family::Push | Family::Pushj => match machine.peek(number, u32::from(fields.ac)) {
            Some(list) => Some(list.right()),
            None => None,
        },
        Family::Byte if fields.op >= IDPB => match before.address {
            Some(address) => match machine.peek(number, address) {
                Some(pointer) => address_of(machine, number, pointer),
                None => None,
            },
            None => None,
        },
        _ => None,
    }
}

/// The first and the last address where BLT stored words, if they are no registers.
fn block_of(before: &Snapshot) -> Option<(u32, u32)>
    ensures { result ≡ block_of before.now }
{
    let fields = decode(before.executed);
    let first = before.registers[usize::from(fields.ac)].right();
    match (classify(fields.op), before.address) {
        (Family::Blt, Some(address)) => {
            let last = address.max(first);
            if last >= REGISTERS {
                Some((first.max(REGISTERS), last))
            } else {
                None
            }
        }
        _ => None,
    }
}

/// Adds the block that BLT stored: its first word, and the address up to which it reaches.
#[tactic(auto, using(std::proofs::Common::append_assoc))]
fn push_block(
    text: &mut String,
    machine: &Machine,
    job: &TracedJob,
    first: u32,
    last: u32,
) -> Result<(), AllocError>
    ensures { OnOk result (string_bytes text.new
        ≡ string_bytes text.old ++ block_words machine.now.world job.now.places job.now.number first last) }
{
    push_there(text, job, first, machine.peek(job.number, first))?;
    if first == last {
        return Ok(());
    }
    let reference = Reference {
        places: &job.places,
        address: last,
    };
    write!(text, " .. {reference}")
}

/// Adds the word that a step stored beside the one at the effective address, if it is no register.
fn push_beside(
    text: &mut String,
    machine: &Machine,
    job: &TracedJob,
    before: &Snapshot,
) -> Result<(), AllocError>
    ensures { OnOk result (string_bytes text.new
        ≡ string_bytes text.old ++ beside_words machine.now.world job.now.places job.now.number before.now) }
{
    match address_beside(machine, job.number, before) {
        Some(address) if address >= REGISTERS => {
            push_there(text, job, address, machine.peek(job.number, address))
        }
        _ => Ok(()),
    }
}

/// Whether two sets of flags are the same.
fn same_flags(a: Flags, b: Flags) -> bool
    ensures { result ≡ same_flags a b }
{
    a.overflow == b.overflow
        && (a.carry0 == b.carry0 && (a.carry1 == b.carry1 && a.no_divide == b.no_divide))
}

/// Whether a job had these flags.
fn had_flags(old: Option<Flags>, flags: Flags) -> bool
    ensures { result ≡ had_flags old flags }
{
    match old {
        Some(old) => same_flags(old, flags),
        None => false,
    }
}

/// Adds the flags that are set after a step, if the step changed the flags: `  flags Overflow`.
fn push_flags(
    text: &mut String,
    machine: &Machine,
    job: &TracedJob,
    before: &Snapshot,
) -> Result<(), AllocError>
    ensures { OnOk result (string_bytes text.new
        ≡ string_bytes text.old ++ new_flags before.now.flags (job_view machine.now.world job.now.number)) }
{
    let Some(view) = machine.job(job.number) else {
        return Ok(());
    };
    if had_flags(before.flags, view.flags) {
        return Ok(());
    }
    let names = FlagNames { flags: view.flags };
    write!(text, "  flags {names}")
}

/// Adds the words that a step stored in core: the block of BLT, or the word at the effective address, and what PUSH, PUSHJ, IDPB and
/// DPB store.
#[tactic(auto, using(std::proofs::Common::append_assoc))]
fn push_stored(
    text: &mut String,
    machine: &Machine,
    job: &TracedJob,
    before: &Snapshot,
) -> Result<(), AllocError>
    ensures { OnOk result (string_bytes text.new ≡ string_bytes text.old
        ++ stored_words machine.now.world job.now.places job.now.number before.now (block_of before.now)) }
{
    if let Some((first, last)) = block_of(before) {
        return push_block(text, machine, job, first, last);
    }
    push_operand(text, machine, job, before)?;
    push_beside(text, machine, job, before)
}

/// Adds what a step changed: registers, the word at the effective address, what PUSH, PUSHJ, IDPB, DPB and BLT store,
/// and flags.
#[tactic(auto, using(std::proofs::Common::append_assoc))]
pub fn push_changes(
    text: &mut String,
    machine: &Machine,
    job: &TracedJob,
    before: &Snapshot,
) -> Result<(), AllocError>
    ensures { OnOk result (string_bytes text.new ≡ string_bytes text.old
        ++ changes_words machine.now.world job.now.places job.now.number before.now) }
{
    push_registers(text, machine, job, before)?;
    push_stored(text, machine, job, before)?;
    push_flags(text, machine, job, before)
}
