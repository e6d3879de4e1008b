//! OUTCHR and OUTSTR.

ghost use Rattle.std.specs.Prelude.{ℕ, List, true, false, ◌≡◌, ◌<◌, ◌≤◌, ◌+◌, ◌-◌, ◌*◌, ◌/◌, ◌%◌, ◌^◌, ◌∷◌, length, Some, None, []};
ghost use Rattle.ka_state.specs.Memory.{word_below};
ghost use Rattle.core_store.specs.Cores.{IsJob, core_of};
ghost use Rattle.word36.specs.declared.sizes.TheConstants.{OUTPUT_RING};
ghost use Rattle.uuo_calls.specs.TerminalRows.{TextIs, character, outchr, outstr, put_text, text_from};

use crate::call::CallOutcome;
use crate::returns::{stop_at, wait_again};
use arrayvec::ArrayVec;
use core_store::CoreStore;
use job_sched::{Job, Wait};
use ka_state::{CoreWords, JobMemory, Regs, StopReason, word_kept};
use tty_lines::{Char7, Lines};
use word36::{Address, OUTPUT_RING, Word};

/// How many characters of seven bits a word has.
const CHARACTERS_A_WORD: u32 = 5;

/// Character k of a word, 0 to 4 from the left.
fn character(k: u32, word: Word) -> Char7
    requires { k < 5 }
    ensures { result ≡ character k word }
{
    Char7::low_bits(word.number() >> (29 - 7 * k))
}

/// How many words give all their characters to the longest text, which ends within the next word.
const WHOLE_WORDS: u32 = OUTPUT_RING as u32 / CHARACTERS_A_WORD;

/// How many characters of that next word belong to the longest text.
const LAST_CHARACTERS: u32 = OUTPUT_RING as u32 % CHARACTERS_A_WORD;

/// Adds the first `count` characters of a word to a text of whole words, up to a zero. Returns whether there
/// was no zero, so that the text goes on.
#[inline(always)]
fn add_word(text: &mut ArrayVec<Char7, OUTPUT_RING>, word: Word, count: u32) -> bool
    requires whole { length text.old.items % 5 ≡ 0 }
    requires within { count ≤ 5 }
    requires room { length text.old.items + count ≤ OUTPUT_RING }
    ensures goes_on { result ≡ true → (ac core : List ℕ) (e n : ℕ)
        → word_below ac core (e + length text.old.items / 5) ≡ Some word
        → text_from ac core e text.old.items (n + count) ≡ text_from ac core e text.new.items n }
    ensures ended { result ≡ false → (ac core : List ℕ) (e n : ℕ)
        → word_below ac core (e + length text.old.items / 5) ≡ Some word
        → text_from ac core e text.old.items (n + count) ≡ Some text.new.items }
    ensures long { result ≡ true → length text.new.items ≡ length text.old.items + count }
{
    for k in 0..count {
        let c = character(k, word);
        if c.number() == 0 {
            return false;
        }
        text.push(c);
    }
    true
}

/// The text at an address, up to its zero or 512 characters. `None` where an address of it is not legal.
fn read_text<M: JobMemory>(
    regs: &Regs,
    memory: &mut M,
    e: Address,
) -> Option<ArrayVec<Char7, OUTPUT_RING>>
    ensures text { TextIs result (text_from regs.now.ac (M.words memory.old) e [] OUTPUT_RING) }
    ensures same { memory.new ≡ memory.old }
{
    let address = e.number();
    let mut text = ArrayVec::new();
    for i in 0..WHOLE_WORDS {
        let Some(word) = word_kept(regs, memory, address + i) else {
            return None;
        };
        if !add_word(&mut text, word, CHARACTERS_A_WORD) {
            return Some(text);
        }
    }
    let Some(word) = word_kept(regs, memory, address + WHOLE_WORDS) else {
        return None;
    };
    add_word(&mut text, word, LAST_CHARACTERS);
    Some(text)
}

/// Puts a text out at a job's line as a whole, or lets the job wait for room.
fn put(job: &mut Job, text: &[Char7], lines: &mut Lines) -> CallOutcome
    requires { length text.now ≤ OUTPUT_RING }
    ensures { record { job = job.new; lines = lines.new; ending = result } ≡ put_text (Some text.now) job.old lines.old }
{
    if lines.put(job.line, text).is_ok() {
        CallOutcome::Done
    } else {
        wait_again(job, Wait::Room(text.len() as u16));
        CallOutcome::Empty
    }
}

/// OUTSTR: puts out the text at `e`.
pub(crate) fn outstr<C: CoreStore>(
    number: u8,
    job: &mut Job,
    e: Address,
    lines: &mut Lines,
    cores: &mut C,
) -> CallOutcome
    requires number { IsJob number }
    ensures called { record { job = job.new; lines = lines.new; ending = result }
        ≡ outstr e (core_of (C.meaning cores.old) number) job.old lines.old }
    ensures cores { C.meaning cores.new ≡ C.meaning cores.old }
{
    let words = cores.window(number);
    let mut window = CoreWords { words };
    match read_text(&job.regs, &mut window, e) {
        None => {
            stop_at(job, StopReason::IllegalAddress);
            CallOutcome::Done
        }
        Some(text) => put(job, text.as_slice(), lines),
    }
}

/// OUTCHR: puts out the low seven bits of the word at `e`.
pub(crate) fn outchr<C: CoreStore>(
    number: u8,
    job: &mut Job,
    e: Address,
    lines: &mut Lines,
    cores: &mut C,
) -> CallOutcome
    requires number { IsJob number }
    ensures called { record { job = job.new; lines = lines.new; ending = result }
        ≡ outchr e (core_of (C.meaning cores.old) number) job.old lines.old }
    ensures cores { C.meaning cores.new ≡ C.meaning cores.old }
{
    let words = cores.window(number);
    let mut window = CoreWords { words };
    match word_kept(&job.regs, &mut window, e.number()) {
        None => {
            stop_at(job, StopReason::IllegalAddress);
            CallOutcome::Done
        }
        Some(word) => {
            let text = [Char7::low_bits(word.number())];
            put(job, &text, lines)
        }
    }
}
