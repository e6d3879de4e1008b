//! The state that is left.

use ka_state::{CallKind, Outcome, Regs, pc_word};
use std::io;
use word36::Word;

fn write_end(rt: &impl Print, ended: Outcome) -> io::Result<()> {
    match ended {
        Outcome::Done => println!(rt; "END DONE"),
        Outcome::Call(kind, ac, e) => {
            let number = match kind {
                CallKind::Calli => 47,
                CallKind::Ttcall => 51,
            };
            println!(rt; "END CALL {number} {ac:o} {e:o}")
        }
        Outcome::Stop(reason) => {
            let code = reason.code();
            println!(rt; "END STOP {code}")
        }
    }
}

/// Writes the number of instructions, how the last one ended, the registers, and each word of core
/// that is not zero.
pub fn write(
    rt: &impl Print,
    steps: u64,
    ended: Outcome,
    regs: &Regs,
    core: &[Word],
) -> io::Result<()> {
    println!(rt; "STEPS {steps}")?;
    write_end(rt, ended)?;
    let pc = regs.pc.number();
    println!(rt; "PC {pc:06o}")?;
    let flags = pc_word(regs.flags, regs.pc).left();
    println!(rt; "FLAGS {flags:06o}")?;
    for (number, word) in regs.ac.iter().enumerate() {
        let (left, right) = (word.left(), word.right());
        println!(rt; "AC {number:02o} {left:06o},,{right:06o}")?;
    }
    for (address, word) in core.iter().enumerate() {
        if word.number() != 0 {
            let (left, right) = (word.left(), word.right());
            println!(rt; "{address:06o}/ {left:06o},,{right:06o}")?;
        }
    }
    Ok(())
}
