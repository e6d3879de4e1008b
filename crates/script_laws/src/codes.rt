//! The codes of refusals, stops and faults.
ghost use Rattle.std.specs.Prelude.{◌≡◌};
ghost use Rattle.job_sched.specs.Stops.{code_of as stop_code};
ghost use Rattle.job_sched.specs.declared.job.Stop.TheVariants as stop;
ghost use Rattle.ka_state.specs.declared.outcome.StopReason.TheVariants as reason;
ghost use Rattle.lock_queue.specs.Refusals.{code_of as lock_code};
ghost use Rattle.lock_queue.specs.declared.refusal.Refusal.TheVariants as lock;
ghost use Rattle.mac_layout.specs.Faults.{number_of as fault_code};
ghost use Rattle.mac_layout.specs.declared.error.AsmCode.TheVariants as fault;
ghost use Rattle.machine.specs.Refusals.{code_of as event_code};
ghost use Rattle.machine.specs.declared.event.RefusedEvent.TheVariants as event;

/// Why a job is stopped: 0 to 8.
pub fn stop_codes()
    ensures loaded { stop_code stop.Loaded ≡ 0 }
    ensures illegal_address { stop_code (stop.Fault reason.IllegalAddress) ≡ 1 }
    ensures illegal_instruction { stop_code (stop.Fault reason.IllegalInstruction) ≡ 2 }
    ensures halt { stop_code (stop.Fault reason.Halt) ≡ 3 }
    ensures pushdown { stop_code (stop.Fault reason.Pushdown) ≡ 4 }
    ensures address_chain { stop_code (stop.Fault reason.AddressChain) ≡ 5 }
    ensures exit { stop_code stop.Exit ≡ 6 }
    ensures monitor { stop_code stop.Monitor ≡ 7 }
    ensures typed { stop_code stop.Typed ≡ 8 }
{}

/// Why an event is refused: 1 to 8.
pub fn refusal_codes_of_events()
    ensures no_line { event_code event.NoLine ≡ 1 }
    ensures line_busy { event_code event.LineBusy ≡ 2 }
    ensures no_job_number { event_code event.NoJobNumber ≡ 3 }
    ensures no_core { event_code event.NoCore ≡ 4 }
    ensures no_such_job { event_code event.NoSuchJob ≡ 5 }
    ensures not_stopped { event_code event.NotStopped ≡ 6 }
    ensures full { event_code event.Full ≡ 7 }
    ensures bad_image { event_code event.BadImage ≡ 8 }
{}

/// Why a lock call is refused: 1 to 18.
pub fn refusal_codes_of_locks()
    ensures not_granted { lock_code lock.NotGranted ≡ 1 }
    ensures no_function { lock_code lock.NoFunction ≡ 2 }
    ensures bad_block { lock_code lock.BadBlock ≡ 3 }
    ensures bad_count { lock_code lock.BadCount ≡ 4 }
    ensures bad_pointer { lock_code lock.BadPointer ≡ 5 }
    ensures bad_name { lock_code lock.BadName ≡ 6 }
    ensures bad_qualifier { lock_code lock.BadQualifier ≡ 7 }
    ensures bad_pool { lock_code lock.BadPool ≡ 8 }
    ensures differs { lock_code lock.Differs ≡ 9 }
    ensures level_order { lock_code lock.LevelOrder ≡ 10 }
    ensures named_already { lock_code lock.NamedAlready ≡ 11 }
    ensures not_present { lock_code lock.NotPresent ≡ 12 }
    ensures would_lose { lock_code lock.WouldLose ≡ 13 }
    ensures queue_full { lock_code lock.QueueFull ≡ 14 }
    ensures no_vector { lock_code lock.NoVector ≡ 15 }
    ensures over_quota { lock_code lock.OverQuota ≡ 16 }
    ensures timed_out { lock_code lock.TimedOut ≡ 17 }
    ensures no_such_quota { lock_code lock.NoSuchQuota ≡ 18 }
{}

/// What is wrong with a source: 1 to 7.
pub fn fault_codes_of_sources()
    ensures syntax { fault_code fault.Syntax ≡ 1 }
    ensures unknown_name { fault_code fault.UnknownName ≡ 2 }
    ensures defined_twice { fault_code fault.DefinedTwice ≡ 3 }
    ensures does_not_fit { fault_code fault.DoesNotFit ≡ 4 }
    ensures not_yet_defined { fault_code fault.NotYetDefined ≡ 5 }
    ensures address_too_high { fault_code fault.AddressTooHigh ≡ 6 }
    ensures no_end { fault_code fault.NoEnd ≡ 7 }
{}
