//! A script that is being served, whatever its language.
ghost use Rattle.std.specs.Prelude.{◌≡◌, ◌+◌, ◌^◌, ◌<◌, ◌≤◌, ◌++◌};
ghost use Rattle.std.specs.Prelude.{ℕ, List, [], Bool, true, length, drop, IfOk};
ghost use Rattle.script_io.specs.Transcripts.{Transcript, after, closed};

use std::alloc::AllocError;

/// A script of which some bytes have been read.
pub trait Session {
    /// The ways in which scripts of its language end.
    type Ending: Copy;

    /// The rest of the transcript: what is still written, and how the script ends, if these bytes are all that follow.
    ghost follow: { Self → List ℕ → Transcript Self.Ending };

    /// Whether the script has ended, so that no further byte counts.
    ghost has_ended: { Self → Bool };

    /// A number that is at most that of the bytes read so far.
    ghost count: { Self → ℕ };

    /// Whether the script has ended.
    fn has_ended(&self) -> bool
        ensures { result ≡ has_ended self.now };

    /// Takes a beginning of the next bytes, at least one of them, appends its output, and returns its length.
    fn feed(&mut self, bytes: &[u8], out: &mut Vec<u8>) -> Result<usize, AllocError>
        requires some { 0 < length bytes.now }
        requires room { count self.old + length bytes.now < 2 ^ 128 }
        ensures taken { IfOk result (λ n. (0 < n) × (n ≤ length bytes.now)) }
        ensures count { IfOk result (λ n. count self.new ≤ count self.old + n) }
        ensures follows { IfOk result (λ n. (more : List ℕ) →
            after out.old.items (follow self.old (bytes.now ++ more))
            ≡ after out.new.items (follow self.new (drop n bytes.now ++ more))) };

    /// Ends the input: appends the output, and returns how the script ends.
    fn finish(&mut self, out: &mut Vec<u8>) -> Result<Self::Ending, AllocError>
        requires room { count self.old + 2 < 2 ^ 128 }
        ensures { IfOk result (λ ending. after out.old.items (follow self.old []) ≡ closed out.new.items ending) };

    ghost ends: { (s : Self) (a b : List ℕ) → has_ended s ≡ true → follow s a ≡ follow s b };
}
