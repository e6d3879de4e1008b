//! What a source defines.

use crate::state::Assembly;
use macro_faults::Fault;
use macro_names::{Name, text_of};
use macro_operations::{BuiltIn, Operation, built_in, of_others};
use macro_stream::Place;
use macro_symbols::{Definition, DefinitionKind, Meaning};
use word36::Word;

impl Assembly {
    /// Notes a use of a name, or that it is defined, in the second pass.
    fn note(&mut self, name: Name, line: u32, defined: bool) {
        if self.pass == 2 && !self.is_failed() {
            let done = self.listing.note(name.sixbit(), line, defined).is_ok();
            self.kept(done);
        }
    }

    /// Notes a use of a name, in the second pass.
    pub fn note_use(&mut self, name: Name, line: u32) {
        self.note(name, line, false)
    }

    /// Notes that a name is defined, in the second pass.
    pub fn note_definition(&mut self, name: Name, line: u32) {
        self.note(name, line, true)
    }

    /// Defines a name, in place of what it was.
    fn put_definition(&mut self, name: Name, definition: Definition) {
        if !self.is_failed() {
            let done = self.symbols.put(name, definition).is_ok();
            self.kept(done);
        }
    }

    /// Gives a name a meaning, in place of what it meant.
    pub fn put_meaning(&mut self, name: Name, meaning: Meaning) {
        if !self.is_failed() {
            let done = self.meanings.put(name, meaning).is_ok();
            self.kept(done);
        }
    }

    /// Defines a label. Its value is not known so far where it stands in a literal.
    pub fn define_label(&mut self, name: Name, place: Place, value: Option<i64>) {
        match self.symbols.get(name) {
            None => {
                let definition = Definition {
                    kind: DefinitionKind::Label,
                    value,
                    placed: true,
                    multiple: false,
                    phased: self.phase.is_some(),
                    shown: false,
                    pass: self.pass,
                };
                self.put_definition(name, definition);
            }
            Some(before) if before.kind == DefinitionKind::Label && before.pass != self.pass => {
                let definition = Definition {
                    pass: self.pass,
                    ..before
                };
                self.put_definition(name, definition);
                if value.is_some() && value != before.value {
                    self.report_moved(place, Fault::OtherPlace(name));
                }
            }
            Some(before) => self.define_again(name, before, place, Fault::Duplicate(name)),
        }
    }

    /// A name that is defined already, and may not be defined again.
    fn define_again(&mut self, name: Name, before: Definition, place: Place, fault: Fault) {
        let definition = Definition {
            multiple: true,
            ..before
        };
        self.put_definition(name, definition);
        self.tell(place, fault);
    }

    /// Assigns a value to a symbol.
    pub fn assign(&mut self, name: Name, place: Place, value: Option<i64>, placed: bool) {
        let shown = self.shown == Some(name);
        match self.symbols.get(name) {
            Some(before) if before.kind != DefinitionKind::Assigned => self.define_again(
                name,
                before,
                place,
                Fault::OtherThing(name),
            ),
            Some(before) => {
                let definition = Definition {
                    value,
                    placed,
                    shown,
                    ..before
                };
                self.put_definition(name, definition);
            }
            None => {
                let definition = Definition {
                    kind: DefinitionKind::Assigned,
                    value,
                    placed,
                    multiple: false,
                    phased: false,
                    shown,
                    pass: self.pass,
                };
                self.put_definition(name, definition);
            }
        }
    }

    /// Gives 0 to a name that has no value, where the value for it was wrong: so its uses are not told too.
    pub fn assign_wrong(&mut self, name: Name, place: Place) {
        let has_value = match self.symbols.get(name) {
            Some(definition) => definition.value.is_some(),
            None => false,
        };
        if !has_value {
            let failure = self.failure;
            self.failure = None;
            self.assign(name, place, Some(0), false);
            if !self.is_failed() {
                self.failure = failure;
            }
        }
    }

    /// `A#`: makes a name a variable, if nothing else defines it.
    pub fn use_variable(&mut self, name: Name) {
        let before = self.symbols.get(name);
        let definition = match before {
            None => Definition {
                kind: DefinitionKind::Variable,
                value: None,
                placed: true,
                multiple: false,
                phased: false,
                shown: false,
                pass: self.pass,
            },
            Some(before) if before.kind == DefinitionKind::Variable && before.pass != self.pass =>
                Definition {
                    pass: self.pass,
                    ..before
                },
            Some(_) => return,
        };
        self.put_definition(name, definition);
        if !self.is_failed() {
            let done = self.variables.push(name).is_ok();
            self.kept(done);
        }
    }

    /// Gives a label of a literal, or a variable, the place that it has now.
    pub fn settle_place(&mut self, name: Name, kind: DefinitionKind, value: i64, place: Place) {
        let Some(before) = self.symbols.get(name) else {
            return;
        };
        if before.kind == kind && !before.multiple {
            let definition = Definition {
                value: Some(value),
                phased: self.phase.is_some(),
                ..before
            };
            self.put_definition(name, definition);
            if self.pass == 2 && before.value != Some(value) {
                self.report_moved(place, Fault::OtherPlace(name));
            }
        }
    }

    /// Whether a name inside of brackets is a symbol of the source.
    pub fn is_source_symbol(&self, name: Name) -> bool {
        self.symbols.get(name).is_some() || self.pass == 1 && self.is_soft(name)
    }

    /// Whether a new word stands as a label in the source.
    pub fn is_soft(&self, name: Name) -> bool {
        for soft in &self.assumed_labels {
            if *soft == name {
                return true;
            }
        }
        false
    }

    /// The operation or pseudo-operation of a name, through OPDEF and SYN. A macro is none.
    pub fn operation_of(&self, name: Name) -> Option<BuiltIn> {
        match self.meanings.get(name) {
            Some(Meaning::Opdef(number)) => Some(BuiltIn::Operation(Operation {
                word: number.map(Word::low_bits),
                accumulator: true,
                device: false,
                address: true,
            })),
            Some(Meaning::Synonym(target)) => built_in(target),
            Some(Meaning::Macro(_)) => None,
            None => built_in(name),
        }
    }

    /// Whether IFDEF holds of a name.
    pub fn is_defined(&self, name: Name) -> bool {
        let has_value = match self.symbols.get(name) {
            Some(definition) => definition.value.is_some(),
            None => false,
        };
        has_value
            || self.meanings.get(name).is_some()
            || self.operation_of(name).is_some()
            || self.takes_others && of_others(text_of(name).as_slice()).is_some()
    }
}
