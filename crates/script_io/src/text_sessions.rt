//! Scripts whose text is needed whole.
ghost use Rattle.std.specs.Prelude.{◌≡◌, ◌++◌, ℕ, List, false, IfOk};
ghost use Rattle.script_io.specs.Transcripts.{Transcript, after, closed, never_ended-same};

use crate::sessions::Session;
use std::alloc::{AllocError, Global};

/// A language whose scripts are taken as one text.
pub trait TextService {
    /// The ways in which scripts of its language end.
    type Ending: Copy;

    /// The transcript of a text.
    ghost transcript: { Self → List ℕ → Transcript Self.Ending };

    /// Takes the text, appends its output, and returns how the script ends.
    fn take_text(&mut self, text: &[u8], out: &mut Vec<u8>) -> Result<Self::Ending, AllocError>
        ensures { IfOk result (λ ending. after out.old.items (transcript self.old text.now) ≡ closed out.new.items ending) };
}

/// A script whose bytes are kept until the end of the input; its output follows then.
#[derive(Drop)]
pub struct TextSession<S: Drop> {
    service: S,
    text: Vec<u8>,
}

impl<S: TextService + Drop> TextSession<S> {
    /// A script of which nothing has been read.
    pub fn new(alloc: Global, service: S) -> Self
        ensures fresh { (bytes : List ℕ) → ⟦<TextSession<S> as Session>⟧.follow result bytes ≡ S.transcript service bytes }
        ensures count { ⟦<TextSession<S> as Session>⟧.count result ≡ 0 }
    {
        TextSession {
            service,
            text: Vec::new(alloc),
        }
    }
}

impl<S: TextService + Drop> Session for TextSession<S> {
    type Ending = S::Ending;

    ghost follow = { λ s bytes. S.transcript s.service (s.text.items ++ bytes) };

    ghost has_ended = { λ s. false };

    ghost count = { λ s. 0 };

    fn has_ended(&self) -> bool {
        false
    }

    fn feed(&mut self, bytes: &[u8], _out: &mut Vec<u8>) -> Result<usize, AllocError> {
        self.text.extend_from_slice(bytes)?;
        Ok(bytes.len())
    }

    fn finish(&mut self, out: &mut Vec<u8>) -> Result<S::Ending, AllocError> {
        let text = &self.text;
        self.service.take_text(text.as_slice(), out)
    }

    ghost ends = { λ s a b h. never_ended-same _ _ h };
}
