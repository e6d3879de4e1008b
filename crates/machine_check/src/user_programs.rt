//! The programs that the users run.

/// Counts in a shared word under the lock X, for ever.
pub const COUNTER: &str = "\
LOOP: MOVE 1,[BLK]
 ENQ. 1,
 HALT
 MOVEI 1,0
 DATRD. 1,
 HALT
 MOVE 2,1
 ADDI 2,1
 MOVEI 1,0
 DATWR. 1,
 HALT
 MOVE 1,[BLK]
 DEQ. 1,
 HALT
 AOJA 5,LOOP
BLK: 1,,5
 0,,7
 777777
 POINT 7,[ASCIZ /X/]
 0
 END LOOP
";

/// Shares the lock X and takes two of three drives, for a while each, without waiting for them.
pub const READER: &str = "\
LOOP: MOVE 1,[1,,BLK]
 ENQ. 1,
 JRST REST
 MOVEI 2,3
 SLEEP 2,
 MOVE 1,[1,,7]
 DEQ. 1,
 JFCL
REST: AOJA 5,LOOP
BLK: 2,,10
 0,,7
 400000,,777777
 POINT 7,[ASCIZ /X/]
 0
 1,,777777
 POINT 7,[ASCIZ /TAPE/]
 3,,2
 END LOOP
";

/// Echoes what is typed.
pub const ECHO: &str = "\
LOOP: INCHWL 1
 OUTCHR 1
 OUTSTR [ASCIZ / TYPED/]
 JRST LOOP
 END LOOP
";

/// Asks for the lock X, works until an interrupt notifies it of the grant, and gives it up.
pub const WORKER: &str = "\
BEGIN: MOVEI 1,VEC
 PIINI. 1,
 HALT
 MOVEI 1,1
 PISYS. 1,
 HALT
ASK: MOVE 1,[2,,BLK]
 ENQ. 1,
 JFCL
WORK: AOJA 5,WORK
GOT: MOVE 1,[1,,11]
 DEQ. 1,
 JFCL
 MOVEI 2,ASK
 MOVEM 2,VEC+1
 DEBRK.
VEC: GOT
 0
 0
 0
BLK: 1,,5
 0,,11
 777777
 POINT 7,[ASCIZ /X/]
 0
 END BEGIN
";

/// Shares the lock X in group 1 for a while, waits for it no longer than half a second, and asks anew
/// where that was too short.
pub const GROUPED: &str = "\
LOOP: MOVE 1,[BLK]
 ENQ. 1,
 JRST REST
 MOVEI 2,1
 SLEEP 2,
 MOVE 1,[1,,13]
 DEQ. 1,
 JFCL
REST: AOJA 5,LOOP
BLK: 1,,5
 36,,13
 400000,,777777
 POINT 7,[ASCIZ /X/]
 1
 END LOOP
";

/// All of them.
pub const ALL: [&str; 5] = [COUNTER, READER, ECHO, WORKER, GROUPED];
