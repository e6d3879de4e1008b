//! The programs of the tests.

/// Adds one to data word 0, without a lock, and puts out a character.
pub const LOSSY: &str = " MOVEI 1,0
 DATRD. 1,
 HALT
 MOVE 2,1
 ADDI 2,1
 MOVEI 1,0
 DATWR. 1,
 HALT
 OUTCHR [101]
 EXIT
 END 140
";

/// Adds one to data word 0 under a lock.
pub const CAREFUL: &str = " MOVE 1,[BLK]
 ENQ. 1,
 HALT
 MOVEI 1,0
 DATRD. 1,
 HALT
 MOVE 2,1
 ADDI 2,1
 MOVEI 1,0
 DATWR. 1,
 HALT
 MOVE 1,[BLK]
 DEQ. 1,
 HALT
 EXIT
BLK: 1,,5
 0,,7
 777777
 POINT 7,[ASCIZ /COUNT/]
 0
 END 140
";

/// Sleeps for a second, and writes 5 into data word 0.
pub const SLEEPER: &str = " MOVEI 1,1
 SLEEP 1,
 MOVEI 1,0
 MOVEI 2,5
 DATWR. 1,
 HALT
 EXIT
 END 140
";

/// Asks for the time of day.
pub const CLOCK: &str = " MSTIME 1,
 EXIT
 END 140
";

/// Computes for ever.
pub const LOOP: &str = " AOJA 5,.
 END 140
";

/// Waits for the lock X for at most five ticks.
pub const LIMITED: &str = " MOVE 1,[BLK]
 ENQ. 1,
 EXIT
 EXIT
BLK: 1,,5
 5,,33
 777777
 POINT 7,[ASCIZ /X/]
 0
 END 140
";

/// Has the lock X.
pub const HOLDER: &str = " MOVE 1,[BLK]
 ENQ. 1,
 HALT
 HALT
BLK: 1,,5
 0,,1
 777777
 POINT 7,[ASCIZ /X/]
 0
 END 140
";
