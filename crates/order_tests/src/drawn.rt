//! Programs that are drawn.

use std::alloc::{AllocError, Global};

/// Numbers of chance, each of which follows from the one before.
#[derive(Drop)]
pub(crate) struct Chance {
    state: u64,
}

impl Chance {
    /// Those that follow from a number.
    pub(crate) fn new(seed: u32) -> Self {
        Chance {
            state: u64::from(seed),
        }
    }

    /// The next number, below a limit that is not 0.
    pub(crate) fn below(&mut self, limit: u32) -> u32 {
        self.state = self
            .state
            .wrapping_mul(6_364_136_223_846_793_005)
            .wrapping_add(1_442_695_040_888_963_407);
        ((self.state >> 33) as u32).checked_rem(limit).unwrap_or(0)
    }
}

/// Pieces of sources, by one of which a job does something. It waits for nothing but a lock, and goes on after a call that is refused.
static PIECES: [&str; 14] = [
    " MOVEI 1,0\n DATRD. 1,\n HALT\n MOVEI 2,1(1)\n MOVEI 1,0\n DATWR. 1,\n HALT\n",
    " MOVE 1,[A]\n ENQ. 1,\n OUTCHR [101]\n",
    " MOVE 1,[B]\n ENQ. 1,\n OUTCHR [102]\n",
    " MOVE 1,[1,,A]\n ENQ. 1,\n OUTCHR [103]\n",
    " MOVE 1,[A]\n DEQ. 1,\n OUTCHR [104]\n",
    " MOVE 1,[B]\n DEQ. 1,\n OUTCHR [105]\n",
    " MOVE 1,[2,,B]\n ENQ. 1,\n JFCL\n",
    " MOVEI 1,1\n SLEEP 1,\n",
    " MOVEI 1,1\n MOVEI 2,3\n DATWR. 1,\n HALT\n",
    " MOVEI 1,1\n DATRD. 1,\n HALT\n CAIE 1,0\n OUTCHR [106]\n",
    " MOVE 1,[AB]\n ENQ. 1,\n OUTCHR [107]\n",
    " MOVE 1,[SA]\n ENQ. 1,\n OUTCHR [110]\n",
    " RESET\n",
    " AOS COUNT\n OUTCHR [111]\n",
];

/// The piece by which a job is notified of its grants.
const TOLD: &str = " MOVEI 1,VEC\n PIINI. 1,\n HALT\n MOVEI 1,1\n PISYS. 1,\n HALT\n";

/// The last piece of a source.
static LAST: [&str; 4] = [" EXIT\n", " EXIT 1,\n", " LOGOUT\n", " HALT\n"];

/// The blocks of the locks A and B, of both, and of A shared; and the routine for interrupts.
const BLOCKS: &str = "COUNT: 0
GOT: OUTCHR [112]
 DEBRK.
VEC: GOT
 0
 0
 0
A: 1,,5
 0,,1
 200000,,777777
 POINT 7,[ASCIZ /A/]
 0
B: 1,,5
 0,,2
 200000,,777777
 POINT 7,[ASCIZ /B/]
 0
AB: 2,,10
 0,,3
 200000,,777777
 POINT 7,[ASCIZ /A/]
 0
 200000,,777777
 POINT 7,[ASCIZ /B/]
 0
SA: 1,,5
 0,,4
 600000,,777777
 POINT 7,[ASCIZ /A/]
 0
 END 140
";

/// A piece of a list, by chance.
fn piece<'a>(chance: &mut Chance, pieces: &[&'a str]) -> &'a str {
    let count = u32::try_from(pieces.len()).unwrap_or(u32::MAX);
    let number = chance.below(count);
    match pieces.get(number as usize) {
        Some(piece) => piece,
        None => "",
    }
}

/// The source of a program with 1 to `most` pieces; one in eight is notified of its grants.
pub(crate) fn drawn_source(
    alloc: Global,
    chance: &mut Chance,
    most: u32,
) -> Result<String, AllocError> {
    let mut source = String::new(alloc);
    if chance.below(8) == 0 {
        source.push_str(TOLD)?;
    }
    let count = chance.below(most).saturating_add(1);
    for _ in 0..count {
        source.push_str(piece(chance, &PIECES))?;
    }
    source.push_str(piece(chance, &LAST))?;
    source.push_str(BLOCKS)?;
    Ok(source)
}
