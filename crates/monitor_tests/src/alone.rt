//! A job among others is a job alone, also where its core is moved between its steps: it leaves the same
//! registers, core and output.

use crate::store_rows::{assembled, begins, machine, turn};
use core_store::{BlockCore, CoreStore, PlainCore};
use monitor::{Answer, Event, System};
use plain_table::PlainTable;
use std::alloc::Global;
use std::process::Abort;
use word36::{Image, MOST_REQUESTS};

/// Two blocks: a stack in the second, numbers that are added up at its end, bytes that are put and
/// read, and a list by way of an indirect word; and a character is put out. A round has thirteen instructions.
const WALKER: &str = "\
BEGIN: MOVEI 17,2000
L: AOS 5,300
 PUSH 17,5
 PUSHJ 17,SQUARE
 POP 17,6
 OUTCHR 6
 ADDM 6,3777
 IDPB 5,PUT
 ILDB 7,GET
 MOVEM 7,@LIST
 AOS LIST
 JRST L
SQUARE: IMUL 5,5
 POPJ 17,
PUT: POINT 7,2200
GET: POINT 7,2200
LIST: 3000
 LOC 3777
 0
 END BEGIN
";

/// Grows by a block and is cut again, for ever.
const BREATHER: &str =
    "L: MOVEI 1,3777\n CORE 1,\n JFCL\n MOVEI 1,1\n CORE 1,\n JFCL\n JRST L\n END L\n";

/// Does nothing else.
const LOOP: &str = " JRST .\n END\n";

/// The images of the three programs.
#[derive(Drop)]
struct Images {
    walker: Image,
    breather: Image,
    idler: Image,
}

/// A machine on which the job that is looked at runs, and its number.
#[derive(Drop)]
struct Place<C: CoreStore> {
    system: System<PlainTable<MOST_REQUESTS>, C>,
    number: u8,
}

impl<C: CoreStore> Place<C> {
    /// A turn of the job, whatever others take before it.
    fn turn(&mut self) -> bool {
        for _ in 0..32 {
            if turn(&mut self.system) == self.number {
                return true;
            }
        }
        false
    }

    /// Whether the jobs of two machines have the same PC and core, and are stopped alike.
    fn is_at(&self, other: &Place<C>) -> bool {
        let jobs = (self.system.job(self.number), other.system.job(other.number));
        match jobs {
            (Some(one), Some(two)) => {
                one.pc == two.pc
                    && one.stop == two.stop
                    && one.wait == two.wait
                    && one.blocks == two.blocks
            }
            _ => false,
        }
    }

    /// Whether the jobs of two machines have the same registers and the same words in core.
    fn has_words_of(&self, other: &Place<C>) -> bool {
        for a in 0..0o4000 {
            if self.system.peek(self.number, a) != other.system.peek(other.number, a) {
                return false;
            }
        }
        true
    }
}

/// The image of a source.
fn image(rt: &impl Abort, alloc: Global, source: &str) -> Image {
    assembled(alloc, source).expect(rt, "the source is right")
}

/// The walker alone.
fn alone<C: CoreStore>(rt: &impl Abort, alloc: Global, images: &Images) -> Place<C> {
    let mut system = machine(rt, alloc, 64);
    assert!(rt; begins(&mut system, 0, &images.walker, 1));
    Place { system, number: 1 }
}

/// The walker in six blocks, of which one is free, between two jobs that take it by turns: in one memory
/// the walker must make way each time.
fn among<C: CoreStore>(rt: &impl Abort, alloc: Global, images: &Images) -> Place<C> {
    let mut system = machine(rt, alloc, 6);
    let jobs = [
        (1, &images.idler),
        (2, &images.breather),
        (3, &images.walker),
        (4, &images.breather),
    ];
    for (number, image) in jobs {
        assert!(rt; begins(&mut system, number, image, number), "job {number}");
    }
    Place { system, number: 3 }
}

/// Job 1 goes, and another comes in its place.
fn disturb<C: CoreStore>(place: &mut Place<C>, image: &Image) -> bool {
    matches!(place.system.event(&Event::Kill(1)), Answer::Done)
        && begins(&mut place.system, 1, image, 1)
}

/// The first of so many steps after which the walker among others is not as it is alone.
fn first_apart<C: CoreStore>(
    alone: &mut Place<C>,
    among: &mut Place<C>,
    steps: u32,
    idler: &Image,
) -> Option<u32> {
    for step in 1..=steps {
        let ran = alone.turn() && among.turn();
        if !ran || !alone.is_at(among) || !alone.has_words_of(among) {
            return Some(step);
        }
        if step % 25 == 0 && !disturb(among, idler) {
            return Some(step);
        }
    }
    None
}

/// The taking of a character from the line of the walker, where it is alone and where it is among others.
const TAKES: [Event<'static>; 2] = [Event::Take(0, 1), Event::Take(3, 1)];

/// The character that is taken, if there is one.
fn character<C: CoreStore>(place: &mut Place<C>, take: &Event) -> Option<u8> {
    match place.system.event(take) {
        Answer::Text(taken) => match taken.as_slice() {
            [first, ..] => Some(first.number()),
            [] => None,
        },
        _ => None,
    }
}

/// Compares a walker alone with one among others on machines with one of the stores.
fn compare<C: CoreStore>(rt: &impl Abort, alloc: Global, store: &str, images: &Images) {
    let mut alone: Place<C> = alone(rt, alloc, images);
    let mut among: Place<C> = among(rt, alloc, images);
    let apart = first_apart(&mut alone, &mut among, 325, &images.idler);
    assert!(rt; apart.is_none(), "{store}: {apart:?}");
    let rounds = alone.system.peek(1, 0o300).map(|word| word.number());
    assert_eq!(rt; rounds, Some(25), "{store}");
    // Each round put out the character of its number.
    for round in 1..=26 {
        let taken = character(&mut alone, &TAKES[0]);
        assert_eq!(rt; taken, (round <= 25).then_some(round), "{store}");
        assert_eq!(rt; taken, character(&mut among, &TAKES[1]), "{store}");
    }
}

#[test]
fn alone_among(rt: HostRuntime) {
    let images = Images {
        walker: image(&rt, rt.alloc(), WALKER),
        breather: image(&rt, rt.alloc(), BREATHER),
        idler: image(&rt, rt.alloc(), LOOP),
    };
    compare::<PlainCore>(&rt, rt.alloc(), "PlainCore", &images);
    compare::<BlockCore>(&rt, rt.alloc(), "BlockCore", &images);
}
