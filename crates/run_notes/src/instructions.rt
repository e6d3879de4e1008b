//! Instructions in words.
ghost use Rattle.std.specs.Prelude.{◌≡◌, Some, option_copied};
ghost use Rattle.std.specs.Fmt.{WritesOnOk};
ghost use Rattle.ka_isa.specs.Families.{family_of};
ghost use Rattle.run_notes.specs.Instructions.{accumulator_words, address_words, call_name, call_of, field_words, has_name, has_no_accumulator, has_no_address, illegal_kind, illegal_words, index_words, instruction_words, is_accumulator, is_immediate, is_number};
ghost use Rattle.run_notes.specs.Instructions.{is_direct, manuals_name, name_by_ac, name_in, operands_words, place_words, reference_words, rows_of, signed_words, takes_bits, words_by_call};

use crate::locks::sign;
use ka_isa::{Family, Fields, classify, decode, mnemonic, text_of};
use left_out::name_of;
use source_labels::{Places, Spot, nearest};
use std::fmt;
use word36::{Address, Word};

/// The call DEBRK., which goes back to where its job was interrupted.
pub const DEBRK: u32 = 0o137;

/// A half word from this one on is written as a negative number.
const FIRST_NEGATIVE: u32 = 0o400_000;

/// The number of half words.
const HALVES: u32 = 0o1_000_000;

/// How many accumulators there are.
const ACCUMULATORS: u32 = 16;

/// A half word as a signed octal number.
#[derive(Clone, Copy)]
struct Signed(u32);

impl fmt::Display for Signed {
    ghost output = { λ s. Some (signed_words s.0) };

    fn fmt<W: fmt::Write>(&self, f: &mut fmt::Formatter<W>) -> fmt::Result {
        let half = self.0;
        if FIRST_NEGATIVE <= half && half < HALVES {
            let magnitude = HALVES - half;
            write!(f, "-{magnitude:o}")
        } else {
            write!(f, "{half:o}")
        }
    }
}

/// An address as a person reads it: by a label or as a literal where the program has one there, else in octal, with a
/// minus sign where the half word is negative.
#[derive(Clone, Copy, Debug)]
pub struct Reference<'a> {
    /// The program's labels and literals.
    pub places: &'a Places,
    /// The address.
    pub address: u32,
}

/// Whether an address is that of an accumulator, and is written as one: it has no label.
fn is_accumulator(places: &Places, address: u32) -> bool
    ensures { result ≡ is_accumulator places.now address }
{
    match Address::try_new(address) {
        Some(place) => {
            address < ACCUMULATORS && nearest(places.labels.as_slice(), place).is_none()
        }
        None => false,
    }
}

/// Whether the program has a label or literals for an address.
fn has_name(places: &Places, address: u32) -> bool
    ensures { result ≡ has_name places.now address }
{
    match Address::try_new(address) {
        Some(place) => {
            nearest(places.labels.as_slice(), place).is_some()
                || places.literals_at(place).is_some()
        }
        None => false,
    }
}

impl fmt::Display for Reference<'_> {
    ghost output = { λ r. Some (reference_words r.places.now r.address) };

    fn fmt<W: fmt::Write>(&self, f: &mut fmt::Formatter<W>) -> fmt::Result {
        let (places, address) = (self.places, self.address);
        let number = Signed(address);
        match Address::try_new(address) {
            Some(place) if has_name(places, address) => {
                let spot = Spot { places, place };
                write!(f, "{spot}")
            }
            _ => write!(f, "{number}"),
        }
    }
}

/// Whether the address of an operation is a number in itself and not an address of core: in immediate mode, in shifts
/// and in CALLI.
fn is_immediate(op: u16) -> bool
    ensures { result ≡ is_immediate (family_of op) op }
{
    match classify(op) {
        Family::Calli | Family::Shift => true,
        Family::Compare | Family::Test => op / 8 % 2 == 0,
        Family::Move
        | Family::Movs
        | Family::Movn
        | Family::Movm
        | Family::Imul
        | Family::Mul
        | Family::Idiv
        | Family::Add
        | Family::Sub
        | Family::Boolean
        | Family::Half => op % 4 == 1,
        _ => false,
    }
}

/// Whether the address of an instruction is a number in itself: after `@` it is an address of core always.
fn is_number(fields: Fields) -> bool
    ensures { result ≡ is_number fields }
{
    is_immediate(fields.op) && !fields.i
}

/// Whether an operation takes its address as bits and not as a number.
fn takes_bits(op: u16) -> bool
    ensures { result ≡ takes_bits (family_of op) }
{
    matches!(classify(op), Family::Test | Family::Boolean)
}

/// The words that the names of calls mean, as a program has them.
static CALLS: [(u64, &str); 28] = [
    (0o047_000_000_000, "RESET"),
    (0o047_000_000_011, "CORE"),
    (0o047_000_000_012, "EXIT"),
    (0o047_000_000_017, "LOGOUT"),
    (0o047_000_000_023, "MSTIME"),
    (0o047_000_000_030, "PJOB"),
    (0o047_000_000_031, "SLEEP"),
    (0o047_000_000_135, "PIINI."),
    (0o047_000_000_136, "PISYS."),
    (0o047_000_000_137, "DEBRK."),
    (0o047_000_000_151, "ENQ."),
    (0o047_000_000_152, "DEQ."),
    (0o047_000_000_153, "ENQC."),
    (0o047_000_777_776, "DATRD."),
    (0o047_000_777_775, "DATWR."),
    (0o047_040_000_012, "MONRT."),
    (0o051_000_000_000, "INCHRW"),
    (0o051_040_000_000, "OUTCHR"),
    (0o051_100_000_000, "INCHRS"),
    (0o051_140_000_000, "OUTSTR"),
    (0o051_200_000_000, "INCHWL"),
    (0o051_240_000_000, "INCHSL"),
    (0o051_440_000_000, "CLRBFI"),
    (0o051_500_000_000, "CLRBFO"),
    (0o051_540_000_000, "SKPINC"),
    (0o051_600_000_000, "SKPINL"),
    (0o254_200_000_000, "HALT"),
    (0o254_100_000_000, "JRSTF"),
];

/// The name of a number in a table, if it has one.
fn name_in(rows: &[(u64, &'static str)], number: u64) -> Option<&'static str>
    ensures { option_copied result ≡ name_in (rows_of rows.now) number }
{
    for (known, name) in rows {
        if *known == number {
            return Some(*name);
        }
    }
    None
}

/// The name of the call that a word is.
fn call_name(word: u64) -> Option<&'static str>
    ensures { option_copied result ≡ call_name word }
{
    name_in(&CALLS, word)
}

/// The name of an instruction whose AC field belongs to the name: a terminal call, HALT or JRSTF.
fn name_by_ac(fields: Fields) -> Option<&'static str>
    ensures { option_copied result ≡ name_by_ac (family_of fields.op) fields }
{
    match classify(fields.op) {
        Family::Ttcall | Family::Jrst => {
            call_name(u64::from(fields.op) * (1 << 27) + u64::from(fields.ac) * (1 << 23))
        }
        _ => None,
    }
}

/// Whether an instruction has only an address, without `@` and without an index.
fn is_direct(fields: Fields) -> bool
    ensures { result ≡ is_direct fields }
{
    !fields.i && fields.x == 0
}

/// The name of the monitor call that an instruction makes, if it is a CALLI with a number of a call.
fn call_of(fields: Fields) -> Option<&'static str>
    ensures { option_copied result ≡ call_of fields }
{
    match classify(fields.op) {
        Family::Calli if is_direct(fields) => {
            call_name(u64::from(fields.op) * (1 << 27) + u64::from(fields.y))
        }
        _ => None,
    }
}

/// Whether the address of an instruction is left out: it is 0, and the operation does not use it.
fn has_no_address(fields: Fields) -> bool
    ensures { result ≡ has_no_address fields }
{
    let looks_at_none = match classify(fields.op) {
        Family::Popj | Family::Jfcl => true,
        Family::Jrst => fields.ac == 4,
        Family::Ttcall => fields.ac >= 0o11,
        _ => false,
    };
    looks_at_none && fields.y == 0 && is_direct(fields)
}

/// An accumulator as a person reads it: by the name that the source assigned to its number, else in octal.
#[derive(Clone, Copy)]
struct Accumulator<'a> {
    /// The program's names.
    places: &'a Places,
    /// Its number.
    number: u32,
}

impl fmt::Display for Accumulator<'_> {
    ghost output = { λ a. Some (accumulator_words a.places.now a.number) };

    fn fmt<W: fmt::Write>(&self, f: &mut fmt::Formatter<W>) -> fmt::Result {
        match self.places.accumulator(self.number) {
            Some(name) => write!(f, "{name}"),
            None => write!(f, "{:o}", self.number),
        }
    }
}

/// Whether the AC field of an operation is a function or a set of flags, and no accumulator.
fn has_no_accumulator(op: u16) -> bool
    ensures { result ≡ has_no_accumulator (family_of op) }
{
    matches!(classify(op), Family::Jrst | Family::Jfcl)
}

/// The AC field of an instruction, with a comma; nothing if it is 0.
#[derive(Clone, Copy)]
struct AcField<'a> {
    places: &'a Places,
    op: u16,
    ac: u8,
}

impl fmt::Display for AcField<'_> {
    ghost output = { λ a. Some (field_words a.places.now a.op a.ac) };

    fn fmt<W: fmt::Write>(&self, f: &mut fmt::Formatter<W>) -> fmt::Result {
        let accumulator = Accumulator {
            places: self.places,
            number: u32::from(self.ac),
        };
        if self.ac == 0 {
            Ok(())
        } else if has_no_accumulator(self.op) {
            write!(f, " {:o},", self.ac)
        } else {
            write!(f, " {accumulator},")
        }
    }
}

/// The index register of an instruction; nothing if it has none.
#[derive(Clone, Copy)]
struct Index<'a> {
    places: &'a Places,
    register: u8,
}

impl fmt::Display for Index<'_> {
    ghost output = { λ i. Some (index_words i.places.now i.register) };

    fn fmt<W: fmt::Write>(&self, f: &mut fmt::Formatter<W>) -> fmt::Result {
        let accumulator = Accumulator {
            places: self.places,
            number: u32::from(self.register),
        };
        if self.register == 0 {
            Ok(())
        } else {
            write!(f, "({accumulator})")
        }
    }
}

/// What an instruction has between `@` and the index: an address of core, or a number.
#[derive(Clone, Copy)]
struct Place<'a> {
    places: &'a Places,
    fields: Fields,
}

impl fmt::Display for Place<'_> {
    ghost output = { λ p. Some (place_words p.places.now p.fields) };

    fn fmt<W: fmt::Write>(&self, f: &mut fmt::Formatter<W>) -> fmt::Result {
        let (places, fields) = (self.places, self.fields);
        let (number, address) = (Signed(fields.y), fields.y);
        let accumulator = Accumulator {
            places,
            number: fields.y,
        };
        let reference = Reference { places, address };
        if is_number(fields) {
            if takes_bits(fields.op) {
                write!(f, "{address:o}")
            } else {
                write!(f, "{number}")
            }
        } else if is_accumulator(places, address) {
            write!(f, "{accumulator}")
        } else {
            write!(f, "{reference}")
        }
    }
}

/// The address part of an instruction.
#[derive(Clone, Copy)]
struct AddressPart<'a> {
    places: &'a Places,
    fields: Fields,
}

impl fmt::Display for AddressPart<'_> {
    ghost output = { λ a. Some (address_words a.places.now a.fields) };

    fn fmt<W: fmt::Write>(&self, f: &mut fmt::Formatter<W>) -> fmt::Result {
        let (places, fields) = (self.places, self.fields);
        let indirect = sign(fields.i, "@");
        let place = Place { places, fields };
        let index = Index {
            places,
            register: fields.x,
        };
        write!(f, "{indirect}{place}{index}")
    }
}

/// An instruction as a person reads it, with labels for addresses, and with the names that its source has for accumulators.
#[derive(Clone, Copy, Debug)]
pub struct InstructionText<'a> {
    /// The program's labels and literals.
    pub places: &'a Places,
    /// The instruction.
    pub word: Word,
}

/// Writes an instruction of this name. The accumulator is left out if it is 0 or belongs to the name.
fn write_operands<W: fmt::Write>(
    places: &Places,
    name: &str,
    fields: Fields,
    ac: u8,
    f: &mut fmt::Formatter<W>,
) -> fmt::Result
    ensures { WritesOnOk W.write_str_gives f.old result (operands_words places.now name.now fields ac) f.new }
{
    let op = fields.op;
    let accumulator = AcField { places, op, ac };
    let address = AddressPart { places, fields };
    let blank = sign(ac == 0, " ");
    if has_no_address(fields) {
        write!(f, "{name}{accumulator}")
    } else {
        write!(f, "{name}{accumulator}{blank}{address}")
    }
}

/// Writes an instruction whose operation has this name.
fn write_named<W: fmt::Write>(
    places: &Places,
    name: &str,
    fields: Fields,
    f: &mut fmt::Formatter<W>,
) -> fmt::Result
    ensures { WritesOnOk W.write_str_gives f.old result (words_by_call places.now (call_of fields) name.now fields) f.new }
{
    let (op, ac) = (fields.op, fields.ac);
    let accumulator = AcField { places, op, ac };
    if let Some(call) = call_of(fields) {
        return write!(f, "{call}{accumulator}");
    }
    match name_by_ac(fields) {
        Some(own) => write_operands(places, own, fields, 0, f),
        None => write_operands(places, name, fields, ac, f),
    }
}

/// Why the processor refuses an instruction as illegal.
fn illegal_kind(op: u16) -> &'static str
    ensures { result.now ≡ illegal_kind op }
{
    match op {
        0 => "no operation",
        1..=0o37 => "an operation of the job's own (LUUO), which is not here",
        0o40..=0o77 => "a monitor call that is not here",
        0o254 => "a function of JRST that is not here",
        0o700..=0o777 => "an instruction of a device, which a job may not use",
        _ => "an operation that is not here",
    }
}

/// The name that the manuals give an instruction that is not here, if its word alone says which it is; else empty.
fn manuals_name(fields: Fields) -> &'static str
    ensures { result.now ≡ manuals_name fields }
{
    if fields.op == 0o47 && !is_direct(fields) {
        ""
    } else {
        name_of(fields.op, fields.ac, fields.y)
    }
}

/// An instruction that the processor refused as illegal: as a person reads it, its word, its kind, and the name that the manuals give
/// it, if they have one.
#[derive(Clone, Copy, Debug)]
pub struct IllegalText<'a> {
    /// The program's labels and literals.
    pub places: &'a Places,
    /// The instruction.
    pub word: Word,
}

impl fmt::Display for IllegalText<'_> {
    ghost output = { λ t. Some (illegal_words t.places.now t.word) };

    fn fmt<W: fmt::Write>(&self, f: &mut fmt::Formatter<W>) -> fmt::Result {
        let (places, word) = (self.places, self.word);
        let fields = decode(word);
        let instruction = InstructionText { places, word };
        let (kind, name) = (illegal_kind(fields.op), manuals_name(fields));
        let mark = if name.is_empty() { "" } else { ": " };
        if mnemonic(fields.op).is_some() {
            write!(f, "{instruction}, {word}, {kind}{mark}{name}")
        } else {
            write!(f, "{word}, {kind}{mark}{name}")
        }
    }
}

impl fmt::Display for InstructionText<'_> {
    ghost output = { λ t. Some (instruction_words t.places.now t.word) };

    fn fmt<W: fmt::Write>(&self, f: &mut fmt::Formatter<W>) -> fmt::Result {
        let fields = decode(self.word);
        match mnemonic(fields.op) {
            Some(name) => write_named(self.places, name, fields, f),
            None => f.write_str(text_of(self.word).as_str()),
        }
    }
}
