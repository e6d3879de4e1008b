//! Runs bare words on the processor and writes the state that is left.
//!
//! Standard input has lines `address word` in octal, addresses below 20 being registers; before them may
//! stand `flags f` and `pc a` in octal and `size n`, the blocks of core, in decimal, and behind them
//! `START a`, as `lockmon asm` writes it. `;` begins a comment. The argument is the greatest number of
//! instructions, in decimal.
#![tactic(auto)]

mod input;
mod report;

use input::{Line, read_line};
use ka_cpu::run_steps;
use ka_state::{Flags, Regs};
use program_shell::{
    DONE, Failure, FailureLines, REFUSED, USAGE, arguments_or_status, read_input, report_failure,
    report_to,
};
use script_io::{HostIn, HostOut, Parts};
use std::process::ExitCode;
use std::str;
use word36::{Address, BLOCK_WORDS, MOST_BLOCKS, Word};

/// What is written where the arguments are wrong.
const USAGE_LINE: &[u8] =
    b"usage: ka_run N < words    runs at most N instructions (decimal); the words as \
    `lockmon asm` writes them\n";

/// The lines by which the program reports a failure.
const FAILURE_LINES: FailureLines = FailureLines {
    read: b"ka_run: read\n",
    write: b"ka_run: write\n",
    memory: b"ka_run: memory\n",
};

/// What the input has said so far: the number of blocks of core, whether a word has come, and whether
/// `START` has.
#[derive(Clone, Copy)]
struct Progress {
    blocks: u32,
    words_begun: bool,
    ended: bool,
}

/// Takes one line of the input, and says whether it is right.
fn take(progress: &mut Progress, regs: &mut Regs, core: &mut [Word], line: Line) -> bool {
    match line {
        Line::Blank => true,
        _ if progress.ended => false,
        Line::Start(pc) => {
            progress.ended = true;
            regs.pc = pc;
            true
        }
        Line::Word(address, word) => {
            progress.words_begun = true;
            let inside = (address as usize) < core.len()
                && address as usize / BLOCK_WORDS < progress.blocks as usize;
            if address < 16 {
                regs.ac[address as usize] = word;
            } else if inside {
                core[address as usize] = word;
            }
            address < 16 || inside
        }
        _ if progress.words_begun => false,
        Line::Flags(flags) => {
            regs.flags = flags;
            true
        }
        Line::Pc(pc) => {
            regs.pc = pc;
            true
        }
        Line::Size(blocks) => {
            progress.blocks = blocks;
            true
        }
    }
}

/// The greatest number of instructions, of arguments that begin with the program's name.
fn limit_of(arguments: &[String]) -> Option<u64> {
    match arguments {
        [_, most] => most.as_str().parse::<u64>().ok(),
        _ => None,
    }
}

/// Takes a line of bytes, and says whether it is right.
fn take_bytes(progress: &mut Progress, regs: &mut Regs, core: &mut [Word], bytes: &[u8]) -> bool {
    match str::from_utf8(bytes) {
        Ok(text) => match read_line(text) {
            Some(line) => take(progress, regs, core, line),
            None => false,
        },
        Err(_) => false,
    }
}

/// The number of the first line of the input that is not right, if one is; all before it are taken.
fn take_all(
    progress: &mut Progress,
    regs: &mut Regs,
    core: &mut [Word],
    input: &[u8],
) -> Option<u64> {
    let mut lines = Parts::of(input, b'\n');
    let mut number = 0u64;
    for _ in 0..=input.len() {
        let Some(line) = lines.next() else {
            break;
        };
        number = number.saturating_add(1);
        if !take_bytes(progress, regs, core, line) {
            return Some(number);
        }
    }
    None
}

/// Runs the words of an input, and writes what is left; gives the exit status.
fn run(rt: &HostRuntime, input: &[u8], most: u64) -> Result<u8, Failure> {
    let size = MOST_BLOCKS as usize * BLOCK_WORDS;
    let mut core = match vec![in rt.alloc(); Word::new(0); size] {
        Ok(core) => core,
        Err(_) => return Err(Failure::Memory),
    };
    let mut progress = Progress {
        blocks: MOST_BLOCKS,
        words_begun: false,
        ended: false,
    };
    let mut regs = Regs {
        ac: [Word::new(0); 16],
        pc: Address::new(0o140),
        flags: Flags {
            overflow: false,
            carry0: false,
            carry1: false,
            no_divide: false,
        },
    };
    let wrong = take_all(&mut progress, &mut regs, core.as_mut_slice(), input);
    let written = match wrong {
        Some(number) => println!(rt; "?INPUT {number}"),
        None => {
            core.truncate(progress.blocks as usize * BLOCK_WORDS);
            let (steps, ended) = run_steps(&mut regs, core.as_mut_slice(), most);
            report::write(rt, steps, ended, &regs, core.as_slice())
        }
    };
    match written {
        Ok(()) if wrong.is_some() => Ok(REFUSED),
        Ok(()) => Ok(DONE),
        Err(_) => Err(Failure::Write),
    }
}

fn main(rt: HostRuntime) -> ExitCode {
    let mut errors = HostOut::new(rt.stderr());
    let arguments = match arguments_or_status(&rt, FAILURE_LINES.memory, &mut errors) {
        Ok(arguments) => arguments,
        Err(status) => return ExitCode::from(status),
    };
    let Some(most) = limit_of(arguments.as_slice()) else {
        return ExitCode::from(report_to(&mut errors, USAGE_LINE, USAGE));
    };
    let mut reader = HostIn::new(rt.stdin());
    let read = read_input(
        rt.alloc(),
        &mut reader,
        usize::MAX,
        &FAILURE_LINES,
        &mut errors,
    );
    let status = match read {
        Ok(input) => match run(&rt, input.as_slice(), most) {
            Ok(status) => status,
            Err(failure) => report_failure(&mut errors, &FAILURE_LINES, failure),
        },
        Err(status) => status,
    };
    ExitCode::from(status)
}
