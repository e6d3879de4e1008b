//! Machines on which programs begin.
ghost use Rattle.std.specs.Prelude.{◌≡◌, IfOk};
ghost use Rattle.job_moves.specs.Moves.{IsAwake};

use core_store::PlainCore;
use job_orders::Machine;
use job_turns::Turns;
use mac_asm::assemble;
use monitor::{Config, Event, System};
use plain_table::PlainTable;
use std::alloc::{AllocError, Global};
use std::process::Abort;
use word36::{Image, MOST_REQUESTS};

/// A machine on which jobs begin.
pub(crate) type Loaded = System<PlainTable<MOST_REQUESTS>, PlainCore>;

/// What sources are assembled to.
pub(crate) fn images_of(
    rt: &impl Abort,
    alloc: Global,
    sources: &[&str],
) -> Result<Vec<Image>, AllocError> {
    let mut images = Vec::new(alloc);
    for source in sources {
        images.push(assemble(alloc, source.as_bytes()).expect(rt, "a right source"))?;
    }
    Ok(images)
}

/// Logs a job in at a terminal line.
#[tactic(auto, using(crate::proofs::Beginnings::login_keeps))]
fn log_in(system: &mut Loaded, line: u8, image: &Image)
    ensures { system.new.blocks ≡ system.old.blocks }
{
    system.event(&Event::Login(line, image));
}

/// Starts a job.
#[tactic(auto, using(crate::proofs::Beginnings::start_keeps))]
fn start(system: &mut Loaded, number: u8)
    ensures { system.new.blocks ≡ system.old.blocks }
{
    // An event may hold an image, of which this one has none: the prover wants its type to be named.
    let _image: Option<&Image> = None;
    system.event(&Event::Start(number));
}

/// A machine of `blocks` blocks with a job for each program, which is started; none has taken a turn.
pub(crate) fn begun(alloc: Global, blocks: u32, images: &[Image]) -> Result<Loaded, AllocError>
    ensures { IfOk result (λ s. s.blocks ≡ blocks) }
{
    let Some(config) = Config::new(blocks, 1) else {
        return Err(AllocError);
    };
    let mut system = System::boot(alloc, config)?;
    let mut line = 0u8;
    for image in images {
        log_in(&mut system, line, image);
        line = line.saturating_add(1);
    }
    let mut number = 1u8;
    for _ in images {
        start(&mut system, number);
        number = number.saturating_add(1);
    }
    Ok(system)
}

/// A machine whose jobs take their turns in any order.
pub(crate) fn machine_of(alloc: Global, system: Loaded, blocks: u32) -> Result<Machine, AllocError>
    requires { blocks ≡ system.blocks }
    ensures { IfOk result IsAwake }
{
    let world = system.into_world();
    let machine = Turns::new(alloc, world, 1, blocks)?;
    Ok(machine)
}
