//! The stack of texts, and its next character.

ghost use Rattle.std.specs.Prelude.{◌≡◌, ℕ, ◌+◌, ◌<◌, ◌≤◌, ◌⊎◌, Some, None, Ok, Err, List, [], ◌∷◌, ◌++◌, length};
ghost use Rattle.std.specs.Prelude.{IsSome, IfErr, OnOk, IfOk, IfSome, IsTrue, true, false, vec_len, slice_get};
ghost use Rattle.macro_stream.specs.Standing.{store_of, argument_in, argument_of, range_of, text_at, argument_text};
ghost use Rattle.macro_stream.specs.Standing.{begun_text, round_of, standing, settled, rounds_begun, next_of, Event};
ghost use Rattle.macro_stream.specs.Standing.{Gives, IsBefore, text_of, source_text, entered_text, waiting_text};
ghost use Rattle.macro_stream.specs.Standing.{in_front};
ghost use Rattle.macro_stream.specs.Limits.{counted_of};
ghost use Rattle.macro_stream.specs.Steps.{StepGives, Stands};

use crate::frames::{Arguments, Frame, Kind, Rounds};
use crate::places::{Around, Place};
use crate::stops::{Limit, Stop};
use crate::texts::{Item, MARK, Range, character_of, ends_with_line, is_character, item_at};
use macro_names::Name;
use std::alloc::{AllocError, Global};

/// A stack of texts, each with its position; the lowest is the source. What is read next is the next character of the
/// highest text that has one. A dummy is one mark; when it comes up, its argument is put on the stack.
#[derive(Drop)]
pub struct Stream {
    /// The storage of all texts; the source comes first.
    pub(crate) items: Vec<Item>,
    source_end: usize,
    lower: Vec<Frame>,
    top: Frame,
    /// The arguments outside of rounds.
    outside: Vec<Arguments>,
    pub(crate) ranges: Vec<Range>,
    /// The texts in which others were put in front, each as it stood then.
    around: Vec<Around>,
    calls: u32,
    lines: u32,
    characters: u32,
}

/// What comes up in the texts.
#[derive(Clone, Copy)]
enum Step {
    /// A character.
    Character(u8),
    /// The end of the source.
    Ended,
    /// An item without a character: read on.
    Passed,
}

/// The source as it is read first.
fn source_frame(end: usize) -> Frame
    ensures { text_at result ≡ source_text end }
{
    Frame {
        kind: Kind::Source,
        name: Name::of(b""),
        range: Range { start: 0, end },
        position: 0,
        line: 1,
        column: 1,
        arguments: no_arguments(),
        end_due: false,
        rounds: Rounds::None,
        origin: (0, 0),
        named: 0,
        outer: 0,
    }
}

/// The arguments of a text in which no mark stands for anything.
fn no_arguments() -> Arguments
    ensures { result ≡ Arguments.Call 0 0 }
{
    Arguments::Call { start: 0, count: 0 }
}

/// The items of a source: one CR before a line end is dropped.
fn items_of(alloc: Global, source: &[u8]) -> Result<Vec<Item>, AllocError> {
    let mut items = Vec::with_capacity(alloc, source.len())?;
    let mut is_return = false;
    for character in source {
        if is_return && *character != b'\n' {
            items.push(13)?;
        }
        is_return = *character == b'\r';
        if !is_return {
            items.push(Item::from(*character))?;
        }
    }
    if is_return {
        items.push(13)?;
    }
    Ok(items)
}

impl Stream {
    /// A stream that stands before a source.
    pub fn new(alloc: Global, source: &[u8]) -> Result<Stream, AllocError>
        ensures before { IfOk result (λ stream. IsBefore stream) }
        ensures whole { IfOk result (λ stream. stream.source_end ≡ vec_len stream.items) }
    {
        let items = items_of(alloc, source)?;
        let source_end = items.len();
        Ok(Stream {
            items,
            source_end,
            lower: Vec::new(alloc),
            top: source_frame(source_end),
            outside: Vec::new(alloc),
            ranges: Vec::new(alloc),
            around: Vec::new(alloc),
            calls: 0,
            lines: 0,
            characters: 0,
        })
    }

    /// Stands before the source again. What was stored stays, and nothing counts against the limits.
    pub fn rewind(&mut self)
        ensures before { IsBefore self.new }
        ensures store { store_of self.new ≡ store_of self.old }
        ensures source { self.new.source_end ≡ self.old.source_end }
    {
        self.lower.clear();
        self.top = source_frame(self.source_end);
        self.calls = 0;
        self.lines = 0;
        self.characters = 0;
    }

    /// The highest text.
    pub fn top(&self) -> Frame {
        self.top
    }

    /// How many texts around what is next are named: 0 in the source.
    pub fn named(&self) -> u32 {
        self.top.named
    }

    /// The items of the storage.
    pub fn items(&self) -> &[Item] {
        self.items.as_slice()
    }

    /// The texts around places: those in which others were put in front.
    pub fn around(&self) -> &[Around] {
        self.around.as_slice()
    }

    /// How many items the source has, which stand first.
    pub fn source_len(&self) -> usize {
        self.source_end
    }

    /// The line of the source that is being read.
    pub fn source_line(&self) -> u32 {
        if self.top.named == 0 {
            return self.top.line;
        }
        for frame in self.lower.as_slice().iter().rev() {
            if frame.named == 0 {
                return frame.line;
            }
        }
        self.top.line
    }

    /// The text that a dummy stands for among these arguments.
    pub fn argument(&self, arguments: Arguments, dummy: u32) -> Range
        ensures { result ≡ argument_of (store_of self.now) arguments dummy }
    {
        self.argument_in(self.outside.len(), arguments, dummy)
    }

    /// The text that a dummy stands for among these arguments and so many of those outside.
    fn argument_in(&self, left: usize, arguments: Arguments, dummy: u32) -> Range
        ensures { result ≡ argument_in (store_of self.now) left arguments dummy }
    {
        match arguments {
            Arguments::Call { start, count } => {
                if dummy < count {
                    self.kept(start, dummy)
                } else {
                    Range::empty()
                }
            }
            Arguments::Round {
                outer,
                dummy: own,
                element,
            } => {
                if own == dummy {
                    return element;
                }
                match self.outside.as_slice().get(outer) {
                    Some(around) if left > 0 => self.argument_in(left - 1, *around, dummy),
                    Some(_) | None => Range::empty(),
                }
            }
        }
    }

    /// A text of those that are kept, so many behind another.
    fn kept(&self, start: usize, behind: u32) -> Range
        ensures { result ≡ range_of self.now.ranges.items (start + behind) }
    {
        match start.checked_add(behind as usize) {
            Some(at) => match self.ranges.as_slice().get(at) {
                Some(range) => *range,
                None => Range::empty(),
            },
            None => Range::empty(),
        }
    }

    /// Puts a text in front of what follows.
    fn push(&mut self, frame: Frame) -> Result<(), Stop>
        ensures deep { 200 ≤ length self.old.lower.items + 1 → result ≡ Err (Stop.Limit Limit.Depth) }
        ensures failed { length self.old.lower.items + 1 < 200 → IfErr result (λ stop. stop ≡ Stop.Memory) }
        ensures lower { OnOk result (self.new.lower.items ≡ self.old.lower.items ++ self.old.top ∷ []) }
        ensures top { OnOk result (self.new ≡ record self.old { lower = self.new.lower; top = frame }) }
        ensures front { OnOk result (standing self.new ≡ in_front self.old (text_at frame)) }
    {
        if self.lower.len() + 1 >= Limit::Depth.most() as usize {
            return Err(Stop::Limit(Limit::Depth));
        }
        let below = self.top;
        match self.lower.push(below) {
            Ok(()) => (),
            Err(_) => return Err(Stop::Memory),
        }
        self.top = frame;
        Ok(())
    }

    /// The highest text as one around a place.
    fn top_around(&self) -> Around {
        Around {
            name: self.top.name,
            line: self.top.line,
            outer: self.top.outer,
        }
    }

    /// Puts a text in front of what follows, and keeps the one that it is put in front of for places.
    fn put(&mut self, frame: Frame) -> Result<(), Stop>
        ensures deep { 200 ≤ length self.old.lower.items + 1 → result ≡ Err (Stop.Limit Limit.Depth) }
        ensures failed { length self.old.lower.items + 1 < 200 → IfErr result (λ stop. stop ≡ Stop.Memory) }
        ensures front { OnOk result (standing self.new ≡ in_front self.old (text_at frame)) }
        ensures rest { OnOk result (self.new ≡ record self.old { lower = self.new.lower; top = self.new.top; around = self.new.around }) }
    {
        let around = self.top_around();
        match self.push(frame) {
            Ok(()) => (),
            Err(stop) => return Err(stop),
        }
        match self.around.push(around) {
            Ok(()) => Ok(()),
            Err(_) => Err(Stop::Memory),
        }
    }

    /// Counts a call, a round or a true condition.
    pub fn count_call(&mut self) -> Result<(), Stop>
        ensures full { 50_000 ≤ self.old.calls → result ≡ Err (Stop.Limit Limit.Calls) }
        ensures counted { self.old.calls < 50_000 → (result ≡ Ok tt) × (self.new ≡ record self.old { calls = self.old.calls + 1 }) }
    {
        if self.calls >= Limit::Calls.most() {
            return Err(Stop::Limit(Limit::Calls));
        }
        self.calls += 1;
        Ok(())
    }

    /// A text as it is put in front. `spot` is the line and column of the statement that does so.
    fn entered(
        &self,
        kind: Kind,
        name: Name,
        range: Range,
        arguments: Arguments,
        spot: (u32, u32),
    ) -> Frame
        ensures { text_at result ≡ entered_text (store_of self.now) kind range arguments }
    {
        let top = self.top;
        Frame {
            kind,
            name,
            range,
            position: range.start,
            line: 1,
            column: 1,
            arguments,
            end_due: kind.closes() && !ends_with_line(self.items.as_slice(), range),
            rounds: Rounds::None,
            origin: if top.named == 0 { spot } else { top.origin },
            named: top.named.saturating_add(1),
            outer: self.around.len(),
        }
    }

    /// Puts a text in front of what follows. `spot` is the line and column of the statement that does so.
    pub fn enter(
        &mut self,
        kind: Kind,
        name: Name,
        range: Range,
        arguments: Arguments,
        spot: (u32, u32),
    ) -> Result<(), Stop>
        ensures deep { 200 ≤ length self.old.lower.items + 1 → result ≡ Err (Stop.Limit Limit.Depth) }
        ensures failed { length self.old.lower.items + 1 < 200 → IfErr result (λ stop. stop ≡ Stop.Memory) }
        ensures front { OnOk result (standing self.new ≡ in_front self.old (entered_text (store_of self.old) kind range arguments)) }
        ensures rest { OnOk result (self.new ≡ record self.old { lower = self.new.lower; top = self.new.top; around = self.new.around }) }
    {
        let frame = self.entered(kind, name, range, arguments, spot);
        self.put(frame)
    }

    /// Puts a text of the source in front that is the source itself: its line and column are its place.
    pub fn enter_source(&mut self, range: Range, line: u32, column: u32) -> Result<(), Stop>
        ensures deep { 200 ≤ length self.old.lower.items + 1 → result ≡ Err (Stop.Limit Limit.Depth) }
        ensures failed { length self.old.lower.items + 1 < 200 → IfErr result (λ stop. stop ≡ Stop.Memory) }
        ensures front { OnOk result (standing self.new
            ≡ in_front self.old (entered_text (store_of self.old) Kind.Source range self.old.top.arguments)) }
        ensures rest { OnOk result (self.new ≡ record self.old { lower = self.new.lower; top = self.new.top }) }
    {
        let top = self.top;
        let end_due = !ends_with_line(self.items.as_slice(), range);
        self.push(Frame {
            kind: Kind::Source,
            range,
            position: range.start,
            line,
            column,
            end_due,
            rounds: Rounds::None,
            ..top
        })
    }

    /// Puts a text with rounds in front. The first begins when a character is needed.
    pub fn enter_rounds(
        &mut self,
        kind: Kind,
        name: Name,
        range: Range,
        rounds: Rounds,
        spot: (u32, u32),
    ) -> Result<(), Stop>
        ensures deep { 200 ≤ length self.old.lower.items + 1 → result ≡ Err (Stop.Limit Limit.Depth) }
        ensures failed { length self.old.lower.items + 1 < 200 → IfErr result (λ stop. stop ≡ Stop.Memory) }
        ensures front { OnOk result (standing self.new ≡ in_front self.old (waiting_text range self.old.top.arguments rounds)) }
        ensures rest { OnOk result (self.new ≡ record self.old { lower = self.new.lower; top = self.new.top; around = self.new.around }) }
    {
        let frame = self.entered(kind, name, range, self.top.arguments, spot);
        self.put(Frame {
            position: range.end,
            end_due: false,
            rounds,
            ..frame
        })
    }

    /// Keeps the arguments of a call.
    pub fn keep_arguments(&mut self, texts: &[Range]) -> Result<Arguments, Stop> {
        let start = self.ranges.len();
        for text in texts {
            self.ranges.push(*text)?;
        }
        let count = texts.len().min(1_000_000) as u32;
        Ok(Arguments::Call { start, count })
    }

    /// Keeps the arguments of the text around rounds; gives their position.
    pub fn keep_outside(&mut self, arguments: Arguments) -> Result<usize, Stop> {
        let at = self.outside.len();
        self.outside.push(arguments)?;
        Ok(at)
    }

    /// Puts the text of a mark in front of what is behind the mark.
    fn enter_argument(&mut self, range: Range) -> Result<(), Stop>
        ensures deep { 200 ≤ length self.old.lower.items + 1 → result ≡ Err (Stop.Limit Limit.Depth) }
        ensures failed { length self.old.lower.items + 1 < 200 → IfErr result (λ stop. stop ≡ Stop.Memory) }
        ensures lower { OnOk result (self.new.lower.items ≡ self.old.lower.items ++ self.old.top ∷ []) }
        ensures rest { OnOk result (self.new ≡ record self.old { lower = self.new.lower; top = self.new.top }) }
        ensures top { OnOk result (text_at self.new.top ≡ argument_text range) }
    {
        let top = self.top;
        self.push(Frame {
            kind: Kind::Argument,
            range,
            position: range.start,
            arguments: no_arguments(),
            end_due: false,
            rounds: Rounds::None,
            ..top
        })
    }

    /// Stands before the highest text again.
    fn begin_round(&mut self, arguments: Arguments, rounds: Rounds)
        ensures top { text_at self.new.top ≡ begun_text (store_of self.old) self.old.top.range arguments rounds }
        ensures rest { self.new ≡ record self.old { top = self.new.top } }
    {
        let range = self.top.range;
        self.top.rounds = rounds;
        self.top.position = range.start;
        self.top.line = 1;
        self.top.arguments = arguments;
        self.top.end_due = !ends_with_line(self.items.as_slice(), range);
    }

    /// Begins the next round of the highest text. False where it has none.
    fn next_round(&mut self) -> Result<bool, Stop>
        ensures none { round_of (store_of self.old) (text_at self.old.top) ≡ None → (result ≡ Ok false) × (self.new ≡ self.old) }
        ensures full { IsSome (round_of (store_of self.old) (text_at self.old.top)) → 50_000 ≤ self.old.calls
            → result ≡ Err (Stop.Limit Limit.Calls) }
        ensures begun { IsSome (round_of (store_of self.old) (text_at self.old.top)) → self.old.calls < 50_000 → result ≡ Ok true }
        ensures low { IfOk result (λ begun. IsTrue begun → self.old.calls < 50_000) }
        ensures over { IfOk result (λ begun. begun ≡ false
            → (round_of (store_of self.old) (text_at self.old.top) ≡ None) × (self.new ≡ self.old)) }
        ensures told { IfErr result (λ stop. (stop ≡ Stop.Limit Limit.Calls) × (50_000 ≤ self.old.calls)) }
        ensures due { IfErr result (λ _. round_of (store_of self.old) (text_at self.old.top) ≡ None → ⊥) }
        ensures top { IfOk result (λ begun. IsTrue begun
            → round_of (store_of self.old) (text_at self.old.top) ≡ Some (text_at self.new.top)) }
        ensures rest { IfOk result (λ begun. IsTrue begun → self.new ≡ record self.old { top = self.new.top; calls = self.old.calls + 1 }) }
    {
        match self.top.rounds {
            Rounds::None => Ok(false),
            Rounds::Count(left) => {
                if left == 0 {
                    return Ok(false);
                }
                self.count_call()?;
                self.begin_round(self.top.arguments, Rounds::Count(left - 1));
                Ok(true)
            }
            Rounds::List {
                next,
                end,
                dummy,
                outer,
            } => {
                let element = match self.ranges.as_slice().get(next) {
                    Some(element) if next < end => *element,
                    Some(_) | None => return Ok(false),
                };
                self.count_call()?;
                let round = Arguments::Round {
                    outer,
                    dummy,
                    element,
                };
                let rounds = Rounds::List {
                    next: next + 1,
                    end,
                    dummy,
                    outer,
                };
                self.begin_round(round, rounds);
                Ok(true)
            }
        }
    }

    /// Takes what comes up next in the highest text: a character stays there, all else is passed.
    fn step(&mut self) -> Result<Step, Stop>
        ensures { StepGives self.old self.new result }
    {
        if self.top.position < self.top.range.end {
            return self.step_inside();
        }
        if self.top.end_due {
            return Ok(Step::Character(b'\n'));
        }
        match self.next_round() {
            Ok(true) => return Ok(Step::Passed),
            Ok(false) => (),
            Err(stop) => return Err(stop),
        }
        match self.lower.pop() {
            Some(below) => {
                self.top = below;
                Ok(Step::Passed)
            }
            None => Ok(Step::Ended),
        }
    }

    /// Takes the next item of the highest text: a character stays there, a mark is passed.
    fn step_inside(&mut self) -> Result<Step, Stop>
        requires { self.now.top.position < self.now.top.range.end }
        ensures { StepGives self.old self.new result }
    {
        let item = item_at(self.items.as_slice(), self.top.position);
        if item < 128 {
            return Ok(Step::Character(item as u8));
        }
        if item < MARK {
            return Err(Stop::NotAscii);
        }
        let range = self.argument(self.top.arguments, item - MARK);
        self.top.position += 1;
        if range.is_empty() {
            return Ok(Step::Passed);
        }
        match self.enter_argument(range) {
            Ok(()) => Ok(Step::Passed),
            Err(stop) => Err(stop),
        }
    }

    /// The next character, where it stands in the highest text. It is the one that `peek` gives, which then changes nothing.
    pub fn ready(&self) -> Option<u8>
        ensures { IfSome result (λ next. Stands self.now.calls (standing self.now) self.now.calls (standing self.now) (Some next)) }
    {
        if self.top.position >= self.top.range.end {
            return None;
        }
        let item = item_at(self.items.as_slice(), self.top.position);
        if item < 128 { Some(item as u8) } else { None }
    }

    /// The next character. None at the end of the source.
    #[tactic(auto, using(crate::proofs::Laws::reading))]
    pub fn peek(&mut self) -> Result<Option<u8>, Stop>
        ensures first { IfOk result (λ next. next ≡ slice_get (text_of (standing self.old)) 0) }
        ensures text { OnOk result (text_of (standing self.new) ≡ text_of (standing self.old)) }
        ensures told { (result ≡ Err Stop.Memory) ⊎ (result ≡ next_of self.old.calls (standing self.old)) }
        ensures left { OnOk result (standing self.new ≡ settled (standing self.old)) }
        ensures counted { OnOk result (self.new.calls ≡ self.old.calls + rounds_begun (standing self.old)) }
    {
        'steps: loop {
            match self.step()? {
                Step::Character(character) => return Ok(Some(character)),
                Step::Ended => return Ok(None),
                Step::Passed => (),
            }
        }
    }

    /// Goes on behind the character that `peek` gave.
    pub fn advance(&mut self, character: u8) -> Result<(), Stop>
        // what `peek` left begins with its character
        ensures read { (rest : List Event) → standing self.old ≡ Gives character ∷ rest → standing self.new ≡ rest }
        ensures source { self.old.top.named ≡ 0 → result ≡ Ok tt }
        ensures produced { 0 < self.old.top.named → result ≡ counted_of self.old.characters self.old.lines character }
    {
        self.pass_character();
        self.count_place(character);
        if self.top.named > 0 {
            self.count_character(character)?;
        }
        Ok(())
    }

    /// Goes on behind what is next in the highest text.
    #[tactic(auto, using(crate::proofs::Steps::reads))]
    fn pass_character(&mut self)
        ensures read { (k : ℕ) (rest : List Event) → standing self.old ≡ Gives k ∷ rest → standing self.new ≡ rest }
        ensures rest { self.new ≡ record self.old { top = self.new.top } }
        ensures named { self.new.top.named ≡ self.old.top.named }
    {
        if self.top.position < self.top.range.end {
            self.top.position += 1;
        } else {
            self.top.end_due = false;
        }
    }

    /// Goes on behind a byte that is not ASCII.
    pub fn skip_byte(&mut self) {
        self.top.position = self.top.position.saturating_add(1);
        self.top.column = self.top.column.saturating_add(1);
    }

    /// Counts a character in the line and the column of the highest text.
    fn count_place(&mut self, character: u8)
        ensures text { text_at self.new.top ≡ text_at self.old.top }
        ensures standing { standing self.new ≡ standing self.old }
        ensures rest { self.new ≡ record self.old { top = self.new.top } }
        ensures named { self.new.top.named ≡ self.old.top.named }
    {
        if character == b'\n' {
            if self.top.kind != Kind::Argument {
                self.top.line = self.top.line.saturating_add(1);
            }
            self.top.column = 1;
        } else {
            self.top.column = self.top.column.saturating_add(1);
        }
    }

    /// Counts a character that a call, a round or a true condition produces.
    fn count_character(&mut self, character: u8) -> Result<(), Stop>
        ensures counted { result ≡ counted_of self.old.characters self.old.lines character }
        ensures standing { standing self.new ≡ standing self.old }
    {
        if self.characters >= Limit::Characters.most() {
            return Err(Stop::Limit(Limit::Characters));
        }
        self.characters += 1;
        if character == b'\n' {
            if self.lines >= Limit::Lines.most() {
                return Err(Stop::Limit(Limit::Lines));
            }
            self.lines += 1;
        }
        Ok(())
    }

    /// The character at a distance from the next one in a text and its arguments; else the distance that is left.
    fn far_in(&self, frame: &Frame, distance: usize) -> Result<u8, usize> {
        let mut left = distance;
        for at in frame.position..frame.range.end {
            let item = item_at(self.items.as_slice(), at);
            match character_of(item) {
                Some(character) => {
                    if left == 0 {
                        return Ok(character);
                    }
                    left -= 1;
                }
                None => {
                    let range = self.argument(frame.arguments, item.saturating_sub(MARK));
                    let length = range.end.saturating_sub(range.start);
                    if length > left {
                        let inner = item_at(
                            self.items.as_slice(),
                            range.start.saturating_add(left),
                        );
                        return Ok(character_of(inner).unwrap_or(b'\n'));
                    }
                    left = left.saturating_sub(length);
                }
            }
        }
        if frame.end_due {
            if left == 0 {
                return Ok(b'\n');
            }
            left = left.saturating_sub(1);
        }
        Err(left)
    }

    /// The character behind the next one, as far as no further round has to be begun for it.
    pub fn second(&self) -> Option<u8> {
        let mut left = match self.far_in(&self.top, 1) {
            Ok(character) => return Some(character),
            Err(left) => left,
        };
        for frame in self.lower.as_slice().iter().rev() {
            match self.far_in(frame, left) {
                Ok(character) => return Some(character),
                Err(rest) => left = rest,
            }
        }
        None
    }

    /// The place of what is next.
    pub fn place(&self) -> Place {
        if self.top.named == 0 {
            return self.source_place();
        }
        let (line, column) = self.top.origin;
        Place {
            line,
            column,
            texts: self.top.named,
            around: self.top_around(),
        }
    }

    /// The place of what is next in the source; its end is behind the last character of its last line.
    fn source_place(&self) -> Place {
        let behind_line = self.top.column == 1 && self.top.position > 0;
        if !behind_line || self.top.position < self.top.range.end || !self.lower.is_empty() {
            return Place::new(self.top.line, self.top.column);
        }
        Place::new(
            self.top.line.saturating_sub(1),
            self.last_line_len().saturating_add(2),
        )
    }

    /// How many characters stand before the line end that was read last.
    fn last_line_len(&self) -> u32 {
        let mut length = 0u32;
        for at in (0..self.top.position.saturating_sub(1)).rev() {
            if is_character(self.items.as_slice(), at, b'\n') {
                break;
            }
            length = length.saturating_add(1);
        }
        length
    }

    /// Ends the rounds of the innermost IRP or IRPC with the present one. False where there is none.
    pub fn stop_rounds(&mut self) -> bool {
        if self.top.kind == Kind::Elements {
            self.top.rounds = Rounds::None;
            return true;
        }
        for at in (0..self.lower.len()).rev() {
            if let Some(frame) = self.lower.as_mut_slice().get_mut(at) {
                if frame.kind == Kind::Elements {
                    frame.rounds = Rounds::None;
                    return true;
                }
            }
        }
        false
    }

    /// The next item of the highest text, without looking below it.
    pub fn next_item(&self) -> Option<Item> {
        if self.top.position < self.top.range.end {
            Some(item_at(self.items.as_slice(), self.top.position))
        } else {
            None
        }
    }

    /// Goes on behind the next item of the highest text, which is a mark or a blank.
    pub fn skip_item(&mut self) {
        self.top.position = self.top.position.saturating_add(1);
        self.top.column = self.top.column.saturating_add(1);
    }

    /// The text from `<`, which is next in the highest text, to its `>`, without the two. None if there is no `>`: the
    /// text is then at its end.
    pub fn bracketed(&mut self) -> Option<Range> {
        let start = self.top.position.saturating_add(1);
        let mut depth = 0usize;
        for at in self.top.position..self.top.range.end {
            let item = item_at(self.items.as_slice(), at);
            self.top.position = at + 1;
            self.count_place(character_of(item).unwrap_or(b' '));
            if item == Item::from(b'<') {
                depth = depth.saturating_add(1);
            } else if item == Item::from(b'>') {
                depth = depth.saturating_sub(1);
                if depth == 0 {
                    return Some(Range { start, end: at });
                }
            }
        }
        self.top.end_due = false;
        None
    }
}
