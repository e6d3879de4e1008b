//! A job as it stands before its turn.

ghost use Rattle.std.specs.Prelude.{◌≡◌, ◌<◌, ℕ, IfSome, Some, count_by, slice_index_or, unwrap_or};
ghost use Rattle.machine.specs.Next.{effective_in, executed_in};
ghost use Rattle.machine.specs.Views.{job_view, word_in};
ghost use Rattle.run_notes.specs.Steps.{is_interrupted, is_own, is_told};

use concrete_machine::Machine;
use ka_state::Flags;
use word36::{Address, Word};

/// How many registers there are.
pub const REGISTERS: usize = 16;

/// What a job executes next, and what it finds there.
#[derive(Clone, Copy)]
pub struct Snapshot {
    /// The address of the instruction: the PC.
    pub place: Address,
    /// The instruction; 0 where the address is not legal.
    pub instruction: Word,
    /// The instruction that is executed in the end: another one where the first is XCT, unless the processor refuses it.
    pub executed: Word,
    /// The effective address of the executed instruction, where indirect words lead to one.
    pub address: Option<u32>,
    /// The word at that address, where the address is legal.
    pub operand: Option<Word>,
    /// The registers.
    pub registers: [Word; REGISTERS],
    /// The flags, if the job is there.
    pub flags: Option<Flags>,
    /// Its requests for locks.
    requests: Requests,
}

/// How many requests for locks a job has.
#[derive(Clone, Copy)]
struct Requests {
    all: usize,
    /// How many of them the job was notified of.
    notified: usize,
}

/// Counts the requests of a job.
fn requests_of(machine: &Machine, number: u8) -> Requests
    ensures all { result.all ≡ count_by (is_own number) machine.now.world.requests }
    ensures notified { result.notified ≡ count_by (is_told number) machine.now.world.requests }
{
    let mut requests = Requests {
        all: 0,
        notified: 0,
    };
    for i in 0..machine.request_count() {
        let request = machine.request(i);
        if request.job == number {
            requests.all += 1;
        }
        if request.job == number && request.notified {
            requests.notified += 1;
        }
    }
    requests
}

impl Snapshot {
    /// Whether the job's turn was an interrupt, which notifies it of a grant and executes nothing: the job has as
    /// many requests as before, and was notified of more of them.
    pub fn is_interrupted(&self, machine: &Machine, number: u8) -> bool
        ensures { result ≡ is_interrupted machine.now.world.requests number self.now }
    {
        let requests = requests_of(machine, number);
        requests.all == self.requests.all && requests.notified > self.requests.notified
    }
}

/// The word of a job at an address, if there is an address and it is legal.
fn word_at(machine: &Machine, number: u8, address: Option<u32>) -> Option<Word>
    ensures { IfSome address (λ a. result ≡ word_in machine.now.world number a) }
{
    match address {
        Some(address) => machine.peek(number, address),
        None => None,
    }
}

/// The effective address of a word of a job, over indirect words. None if the job is not there, or if the processor refuses
/// the address.
pub fn address_of(machine: &Machine, number: u8, word: Word) -> Option<u32>
    ensures { result ≡ effective_in machine.now.world number word }
{
    match machine.effective_address(number, word) {
        Some(address) => Some(address.number()),
        None => None,
    }
}

/// The registers of a job; 0 where it is not there.
fn registers_of(machine: &Machine, number: u8) -> [Word; REGISTERS]
    ensures { (k : ℕ) → k < 16 → slice_index_or result k 0 ≡ unwrap_or (word_in machine.now.world number k) 0 }
{
    let mut registers = [Word::new(0); REGISTERS];
    for register in 0..REGISTERS {
        let word = machine.peek(number, register as u32);
        registers[register] = word.unwrap_or(Word::new(0));
    }
    registers
}

/// The flags of a job, if it is there.
fn flags_of(machine: &Machine, number: u8) -> Option<Flags>
    ensures there { IfSome (job_view machine.now.world number) (λ v. result ≡ Some v.flags) }
{
    match machine.job(number) {
        Some(view) => Some(view.flags),
        None => None,
    }
}

/// What a job executes at an address, and what it finds there.
pub fn snapshot_of(machine: &Machine, number: u8, place: Address) -> Snapshot
    ensures place { result.place ≡ place }
    ensures instruction { IfSome (word_in machine.now.world number place) (λ w. result.instruction ≡ w) }
    ensures executed { IfSome (executed_in machine.now.world number result.instruction) (λ w. result.executed ≡ w) }
    ensures address { result.address ≡ effective_in machine.now.world number result.executed }
    ensures flags { IfSome (job_view machine.now.world number) (λ v. result.flags ≡ Some v.flags) }
    ensures operand { IfSome result.address (λ a. result.operand ≡ word_in machine.now.world number a) }
    ensures registers { (k : ℕ) → k < 16 → slice_index_or result.registers k 0 ≡ unwrap_or (word_in machine.now.world number k) 0 }
    ensures requests { result.requests.all ≡ count_by (is_own number) machine.now.world.requests }
    ensures notified { result.requests.notified ≡ count_by (is_told number) machine.now.world.requests }
{
    let instruction = machine.peek(number, place.number()).unwrap_or(Word::new(0));
    let executed = machine
        .executed_word(number, instruction)
        .unwrap_or(instruction);
    let address = address_of(machine, number, executed);
    Snapshot {
        place,
        instruction,
        executed,
        address,
        operand: word_at(machine, number, address),
        registers: registers_of(machine, number),
        flags: flags_of(machine, number),
        requests: requests_of(machine, number),
    }
}
