//! The state of an assembly.

use crate::listing::Listing;
use left_out::Reason;
use macro_faults::{Failure, Report};
use macro_names::Name;
use macro_stream::{Limit, Place, Range, Stream};
use macro_symbols::{Definitions, Dummy, MacroDefinition, Meanings, PlacedWords};
use macro_values::Numbers;
use std::alloc::{AllocError, Global};
use word36::Word;

/// A label in a literal: its place in the pool, and where it stands.
#[derive(Clone, Copy)]
pub struct PoolLabel {
    /// The name.
    pub name: Name,
    /// The words of the pool before it.
    pub offset: usize,
    /// Where it stands.
    pub place: Place,
}

/// Where the words of a pool of literals stand.
#[derive(Clone, Copy)]
pub struct PlacedPool {
    /// The address of the first.
    pub first: u32,
    /// How many there are.
    pub words: u32,
}

/// A use of an operation or a call of another machine or another monitor.
#[derive(Clone, Copy)]
pub struct OtherUse {
    /// The place of the use.
    pub place: Place,
    /// Its name.
    pub name: Name,
    /// Why it is not here.
    pub reason: Reason,
}

/// `-` or `^-` before a value.
#[derive(Clone, Copy)]
pub struct Sign {
    /// Whether it is `^-`.
    pub is_not: bool,
    /// The place behind it.
    pub place: Place,
}

/// The number of places of memory.
pub const PLACES: usize = 0o1_000_000;

/// The first place.
pub const FIRST: i64 = 0o140;

/// What an assembly knows.
#[derive(Drop)]
pub struct Assembly {
    /// What is read.
    pub stream: Stream,
    /// The memory that it takes.
    pub alloc: Global,
    /// 1 or 2.
    pub pass: u8,
    /// The radix of the lines.
    pub radix: u8,
    /// The radix of the numbers that are being read.
    pub number_radix: u8,
    /// Symbols.
    pub symbols: Definitions,
    /// Meanings of names of operations.
    pub meanings: Meanings,
    /// Macros.
    pub macros: Vec<MacroDefinition>,
    /// The dummies of all `macros`, one after another.
    pub dummies: Vec<Dummy>,
    /// Unknown words at the start of a statement, taken as labels.
    pub assumed_labels: Vec<Name>,
    /// Whether SEARCH UUOSYM was read.
    pub uuosym: bool,
    /// Whether operations and calls of other machines and monitors are taken for their words, if the source gives their names no
    /// meaning.
    pub takes_others: bool,
    /// The uses of these in the second pass.
    pub others: Vec<OtherUse>,
    /// The address of the next word.
    pub counter: i64,
    /// Whether LOC set it last.
    pub absolute: bool,
    /// The absolute counter, saved while relocatable code is read.
    pub kept_absolute: i64,
    /// The relocatable counter, saved while absolute code is read.
    pub kept_relocatable: i64,
    /// How far labels are from their words under PHASE.
    pub phase: Option<i64>,
    /// The name that is being assigned by one `=`.
    pub shown: Option<Name>,
    /// The address that `.` has: that of the statement.
    pub statement_address: i64,
    /// Where the statement begins.
    pub statement: Place,
    /// How many literals are open.
    pub in_literals: u32,
    /// How many brackets are open.
    pub in_brackets: u32,
    /// A name that was read at the start of a statement: a label, or the start of a value.
    pub pending_label: Option<(Name, Place)>,
    /// A name that the first pass does not know.
    pub missing: Option<Name>,
    /// A value that did not fit in the first pass.
    pub deferred: Option<Report>,
    /// Whether a text in brackets is still to come in the statement.
    pub text_due: bool,
    /// Whether a fault of the statement is told, and the statement is read on.
    pub told: bool,
    /// Why the statement is not carried out. Where there is a reason, nothing more is read, and nothing is done.
    pub failure: Option<Failure>,
    /// The numbers of the statement.
    pub numbers: Numbers,
    /// The digits that were read last.
    pub digits: Vec<u8>,
    /// The signs of the values that are being read.
    pub signs: Vec<Sign>,
    /// The arguments of the calls that are being read.
    pub given: Vec<Option<Range>>,
    /// The words of the statement, and behind them those of the literals that are open in it.
    pub words: Vec<Option<Word>>,
    /// The labels of the literals that are open, each with the number of words before it.
    pub labels: Vec<PoolLabel>,
    /// The words of the literals so far.
    pub pool: Vec<Option<Word>>,
    /// Their labels.
    pub pool_labels: Vec<PoolLabel>,
    /// The places of the pools.
    pub pool_bases: Vec<i64>,
    /// Where the pools of the second pass stand that have words, but for those under PHASE.
    pub placed_pools: Vec<PlacedPool>,
    /// How many pools are placed in this pass.
    pub pools: usize,
    /// The variables that are not placed.
    pub variables: Vec<Name>,
    /// How many names were created.
    pub created: u32,
    /// The word of each place.
    pub image: PlacedWords,
    /// What is wrong.
    pub faults: Vec<Report>,
    /// What has another place in the second pass.
    pub moved: Vec<Report>,
    /// The files of SEARCH that are not here.
    pub absent_files: Vec<Report>,
    /// Whether an END was begun, whatever stands behind it.
    pub end_begun: bool,
    /// Whether END was read.
    pub ended: bool,
    /// How many faults are reported before the assembly ends.
    pub most_faults: usize,
    /// Whether a limit was reached.
    pub stopped: bool,
    /// Where the program starts.
    pub start: u32,
    /// The lines of PRINTX.
    pub typed: Vec<u8>,
    /// What is listed.
    pub listing: Listing,
}

impl Assembly {
    /// An assembly of a source, before its first pass.
    pub fn new(alloc: Global, source: &[u8]) -> Result<Assembly, AllocError> {
        Ok(Assembly {
            stream: Stream::new(alloc, source)?,
            alloc,
            pass: 1,
            radix: 8,
            number_radix: 8,
            symbols: Definitions::new(alloc),
            meanings: Meanings::new(alloc),
            macros: Vec::new(alloc),
            dummies: Vec::new(alloc),
            assumed_labels: Vec::new(alloc),
            uuosym: false,
            takes_others: false,
            others: Vec::new(alloc),
            counter: FIRST,
            absolute: false,
            kept_absolute: 0,
            kept_relocatable: FIRST,
            phase: None,
            shown: None,
            statement_address: FIRST,
            statement: Place::new(1, 1),
            in_literals: 0,
            in_brackets: 0,
            pending_label: None,
            missing: None,
            deferred: None,
            text_due: false,
            told: false,
            failure: None,
            numbers: Numbers::new(alloc),
            digits: Vec::new(alloc),
            signs: Vec::new(alloc),
            given: Vec::new(alloc),
            words: Vec::new(alloc),
            labels: Vec::new(alloc),
            pool: Vec::new(alloc),
            pool_labels: Vec::new(alloc),
            pool_bases: Vec::new(alloc),
            placed_pools: Vec::new(alloc),
            pools: 0,
            variables: Vec::new(alloc),
            created: 0,
            image: PlacedWords::new(alloc),
            faults: Vec::new(alloc),
            moved: Vec::new(alloc),
            absent_files: Vec::new(alloc),
            end_begun: false,
            ended: false,
            most_faults: Limit::Errors.most() as usize,
            stopped: false,
            start: 0o140,
            typed: Vec::new(alloc),
            listing: Listing::new(alloc),
        })
    }

    /// Stands before the source, as a pass begins.
    pub fn begin_pass(&mut self, pass: u8) {
        self.pass = pass;
        self.stream.rewind();
        self.listing.begin();
        self.radix = 8;
        self.counter = FIRST;
        self.absolute = false;
        self.kept_absolute = 0;
        self.kept_relocatable = FIRST;
        self.phase = None;
        self.pool.clear();
        self.pool_labels.clear();
        self.pools = 0;
        self.variables.clear();
        self.created = 0;
        self.ended = false;
        self.end_begun = false;
        self.start = 0o140;
        self.forget_statement();
    }

    /// Forgets what is left of a statement that was not carried out.
    pub fn forget_statement(&mut self) {
        self.failure = None;
        self.forget_words();
        self.number_radix = self.radix;
        self.in_literals = 0;
        self.in_brackets = 0;
        self.pending_label = None;
    }

    /// The place that labels and `.` have.
    pub fn phased(&self) -> i64 {
        self.counter.saturating_add(self.phase.unwrap_or(0))
    }

    /// The line and the column of a place, from which a text is put in front.
    pub fn spot(place: Place) -> (u32, u32) {
        (place.line, place.column)
    }

    /// Forgets the words and the numbers of the statement before.
    pub fn forget_words(&mut self) {
        self.told = false;
        self.numbers.clear();
        self.signs.clear();
        self.given.clear();
        self.words.clear();
        self.labels.clear();
    }

    /// The characters of a text.
    pub fn text(&mut self, range: Range) -> Vec<u8> {
        let mut out = Vec::new(self.alloc);
        let mut done = true;
        for at in range.start..range.end {
            match self.stream.items().get(at) {
                Some(item) if *item < 256 => done = done && out.push(*item as u8).is_ok(),
                Some(_) | None => (),
            }
        }
        self.kept(done);
        out
    }
}
