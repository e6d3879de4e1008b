//! The sizes of the machine.
ghost use Rattle.std.specs.Prelude.{◌≡◌, ◌^◌, ◌-◌};
ghost use Rattle.word36.specs.declared.word.TheConstants.{MODULUS, SIGN};
ghost use Rattle.word36.specs.declared.sizes.TheConstants as size;
ghost use Rattle.ka_cpu.specs.declared.limits.TheConstants.{MOST_LINKS, MOST_EXECUTES};
ghost use Rattle.job_sched.specs.declared.time_of_day.TheConstants.{TICKS_A_SECOND, TICKS_A_DAY};
ghost use Rattle.uuo_calls.specs.declared.core_call.TheConstants.{JBREL};
ghost use Rattle.machine.specs.declared.sizes.TheConstants.{
  INTERRUPT_CHARACTER,
  LOGIN_QUOTA,
  MOST_QUANTUM,
  VECTOR_WORDS,
};

/// Words of 36 bits, whose sign is the leftmost.
pub fn sizes_of_words()
    ensures words { MODULUS ≡ 2 ^ 36 }
    ensures sign { SIGN ≡ 2 ^ 35 }
    ensures addresses { size.ADDRESSES ≡ 2 ^ 18 }
    ensures indirect_words { MOST_LINKS ≡ 256 }
    ensures executes { MOST_EXECUTES ≡ 256 }
{}

/// Jobs, terminal lines, and the quantum.
pub fn sizes_of_the_machine()
    ensures jobs { size.JOBS ≡ 63 }
    ensures lines { size.LINES ≡ 64 }
    ensures quantum { MOST_QUANTUM ≡ 60 }
    ensures vector { VECTOR_WORDS ≡ 4 }
{}

/// Core, the words that all jobs share, and the address at which the highest address of a job stands.
pub fn sizes_of_memory()
    ensures block { size.BLOCK_WORDS ≡ 1024 }
    ensures blocks { size.MOST_BLOCKS ≡ 256 }
    ensures data { size.DATA_WORDS ≡ 1024 }
    ensures highest { JBREL ≡ 36 }
{}

/// The rings of a terminal line, and the character that stops its job.
pub fn sizes_of_characters()
    ensures input { size.INPUT_RING ≡ 128 }
    ensures output { size.OUTPUT_RING ≡ 512 }
    ensures taken { size.TAKEN_AT_ONCE ≡ 64 }
    ensures interrupt { INTERRUPT_CHARACTER ≡ 3 }
{}

/// The lock queue.
pub fn sizes_of_locks()
    ensures requests { size.MOST_REQUESTS ≡ 1024 }
    ensures locks { size.LOCKS_A_CALL ≡ 16 }
    ensures name { size.NAME_LENGTH ≡ 30 }
    ensures quota { LOGIN_QUOTA ≡ 64 }
{}

/// The time of day.
pub fn sizes_of_time()
    ensures second { TICKS_A_SECOND ≡ 60 }
    ensures day { TICKS_A_DAY ≡ 5184000 }
{}
