//! Places of words, literals and variables.

use crate::state::{Assembly, PLACES, PlacedPool, PoolLabel};
use crate::values::Value;
use macro_faults::Fault;
use macro_names::Name;
use macro_symbols::DefinitionKind;
use word36::Word;

impl Assembly {
    /// Adds a word to those of the statement.
    pub fn push_word(&mut self, word: Option<Word>) {
        if !self.is_failed() {
            let done = self.words.push(word).is_ok();
            self.kept(done);
        }
    }

    /// Puts a word at the place that is next.
    pub fn emit(&mut self, word: Option<Word>, listed: bool) {
        if self.counter < 0 || self.counter > 0o777_777 {
            return self.fail_statement(Fault::PlaceRange(self.counter));
        }
        if self.pass == 2 {
            self.put(self.counter as u32, word, listed);
        }
        if !self.is_failed() {
            self.counter = self.counter.saturating_add(1);
        }
    }

    /// Puts a word at a place. One that is not known, for a fault that is told, is 0 there, and its row has the place alone.
    fn put(&mut self, place: u32, word: Option<Word>, listed: bool) {
        if self.image.get(place).is_some() {
            self.fail_statement(Fault::TwoWords(place));
        }
        if self.is_failed() {
            return;
        }
        let number = match &word {
            Some(word) => word.number(),
            None => 0,
        };
        let done = self.image.put(place, number).is_ok();
        self.kept(done);
        if listed {
            self.list_row(Some(place), word);
        }
    }

    /// Lists a row of the statement, in the second pass.
    pub fn list_row(&mut self, place: Option<u32>, word: Option<Word>) {
        if self.pass == 2 && !self.is_failed() {
            let line = self.stream.source_line();
            let texts = self.statement.texts;
            let done = self.listing.row(line, texts, place, word).is_ok();
            self.kept(done);
        }
    }

    /// Puts the words of the statement at the places that are next.
    pub fn emit_words(&mut self) {
        for at in 0..self.words.len() {
            if let Some(word) = self.words.as_slice().get(at).copied() {
                self.emit(word, true);
            }
        }
    }

    /// Keeps places, whose words are 0.
    pub fn emit_space(&mut self, count: i64) {
        let end = self.counter.saturating_add(count);
        if end > PLACES as i64 {
            self.fail_statement(Fault::PlaceRange(end.saturating_sub(1)));
        }
        if self.is_failed() {
            return;
        }
        if self.counter >= 0 && self.counter <= 0o777_777 {
            self.list_row(Some(self.counter as u32), None);
        }
        for _ in 0..count {
            self.emit(Some(Word::new(0)), false);
        }
    }

    /// Gives the labels of literals their places, which count from this one on.
    fn settle_labels(&mut self, base: i64) {
        for at in 0..self.pool_labels.len() {
            if let Some(label) = self.pool_labels.as_slice().get(at).copied() {
                let value = base.saturating_add(label.offset.min(PLACES) as i64);
                self.settle_place(label.name, DefinitionKind::Label, value, label.place);
            }
        }
        self.pool_labels.clear();
    }

    /// Notes where the literals of the second pass stand. Under PHASE their words stand elsewhere.
    fn note_pool(&mut self, first: i64) {
        let words = self.pool.len().min(PLACES) as u32;
        if self.pass == 2 && words != 0 && self.phase.is_none() {
            let first = first.max(0).min(PLACES as i64) as u32;
            let done = self.placed_pools.push(PlacedPool { first, words }).is_ok();
            self.kept(done);
        }
    }

    /// Places the literals so far.
    pub fn place_pool(&mut self) {
        if self.is_failed() {
            return;
        }
        let base = self.phased();
        let known = self.pool_bases.as_slice().get(self.pools).copied();
        if self.pass == 1 {
            let done = self.pool_bases.push(base).is_ok();
            self.kept(done);
        } else if !self.pool.is_empty() && known != Some(base) {
            self.report_moved(self.statement, Fault::OtherPool);
        }
        self.pools = self.pools.saturating_add(1);
        self.note_pool(base);
        self.settle_labels(base);
        for at in 0..self.pool.len() {
            if let Some(word) = self.pool.as_slice().get(at).copied() {
                self.emit(word, true);
            }
        }
        if !self.is_failed() {
            self.pool.clear();
        }
    }

    /// Takes the names of the variables so far out of the state, and sorts them.
    fn take_variables(&mut self) -> Vec<u64> {
        let mut names = Vec::new(self.alloc);
        let mut done = true;
        for name in &self.variables {
            done = done && names.push(name.sixbit()).is_ok();
        }
        self.variables.clear();
        done = done && names.sort().is_ok();
        self.kept(done);
        names
    }

    /// Places the variables so far, by name, each once.
    pub fn place_variables(&mut self) {
        if self.is_failed() {
            return;
        }
        let names = self.take_variables();
        let mut last = None;
        for sixbit in &names {
            if last != Some(*sixbit) {
                last = Some(*sixbit);
                let value = self.phased();
                let name = Name::of_sixbit(*sixbit);
                self.settle_place(name, DefinitionKind::Variable, value, self.statement);
                self.emit(Some(Word::new(0)), true);
            }
        }
    }

    /// Moves the labels from index `first_label` on to the pool. They stand in the literal whose words begin at `first_word`.
    pub fn take_labels(&mut self, first_label: usize, first_word: usize) {
        let offset = self.pool.len();
        for at in first_label..self.labels.len() {
            if let Some(label) = self.labels.as_slice().get(at).copied() {
                let own = label.offset.saturating_sub(first_word);
                let label = PoolLabel {
                    offset: own.saturating_add(offset),
                    ..label
                };
                let done = self.pool_labels.push(label).is_ok();
                self.kept(done);
            }
        }
        self.labels.truncate(first_label);
    }

    /// Moves the words from this index on to the pool; gives their place there, where this pass knows it.
    pub fn take_literal(&mut self, first: usize) -> Value {
        let offset = self.pool.len();
        for at in first..self.words.len() {
            if let Some(word) = self.words.as_slice().get(at).copied() {
                let done = self.pool.push(word).is_ok();
                self.kept(done);
            }
        }
        self.words.truncate(first);
        let base = self.pool_bases.as_slice().get(self.pools).copied();
        match base {
            Some(base) if self.pass == 2 => Value::signed(
                base.saturating_add(offset.min(PLACES) as i64),
                true,
            ),
            Some(_) | None => Value::unknown(true),
        }
    }
}
