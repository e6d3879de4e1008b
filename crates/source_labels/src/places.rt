//! The labels and the literals of a source, with their addresses.

ghost use Rattle.std.specs.Prelude.{◌≡◌, ◌<◌, ◌^◌, [], ◌++◌, IfOk, OnOk, if◌then◌else◌, map, option_copied};
ghost use Rattle.std.specs.List.{find};
ghost use Rattle.source_labels.specs.Places.{ArePlaces, AreAdded, ends_block, labels_at, literals_of, run_end, with_end};
ghost use Rattle.source_labels.specs.Spots.{have, literals_at, named_number};

use crate::labels::{Label, write_name};
use mac_layout::{Layout, MEMORY_SIZE, clamped};
use mac_text::{Line, Statement};
use std::alloc::{AllocError, Global};
use std::fmt;
use word36::{Address, Image, Word};

/// The addresses of literals that stand together: `first` .. `end`.
#[derive(Clone, Copy, Debug, PartialEq, Eq)]
pub struct Literals {
    /// The address of END, where the literals begin.
    pub first: u32,
    /// The address after them; `first` where there are no literals.
    pub end: u32,
}

/// A name of a source that stands for a number, and for no address.
#[derive(Clone, Copy, Debug)]
pub struct NamedNumber {
    /// Its six characters in SIXBIT, as a label has them.
    pub name: u64,
    /// The number.
    pub value: Word,
    /// Whether an accumulator of this number is written by it: the source assigned it by one `=`.
    pub is_shown: bool,
}

impl fmt::Display for NamedNumber {
    ghost use Rattle.std.specs.Prelude.{Some};
    ghost use Rattle.source_labels.specs.Labels.{name_words};

    ghost output = { λ n. Some (name_words n.name) };

    fn fmt<W: fmt::Write>(&self, f: &mut fmt::Formatter<W>) -> fmt::Result {
        write_name(self.name, f)
    }
}

/// The labels and the literals of a source, and its names for numbers.
#[derive(Debug, Drop)]
pub struct Places {
    /// The labels, in the order of their definitions.
    pub labels: Vec<Label>,
    /// The literals of a source of the subset, which stand together.
    pub literals: Literals,
    /// The pools of literals of a source in MACRO-10.
    pub pools: Vec<Literals>,
    /// The names that stand for numbers. Accumulators are written by them, and no other address.
    pub numbers: Vec<NamedNumber>,
}

impl Places {
    /// The first pool that has an address.
    fn pool_at(&self, place: Address) -> Option<&Literals>
        ensures { option_copied result ≡ find (have place) self.now.pools.items }
    {
        self.pools.iter().find(|pool| pool.have(place))
    }

    /// The literals among which an address is.
    pub fn literals_at(&self, place: Address) -> Option<Literals>
        ensures { result ≡ literals_at self.now place }
    {
        if self.literals.have(place) {
            return Some(self.literals);
        }
        self.pool_at(place).copied()
    }

    /// The name by which an accumulator is written: of those that the source assigned its number to by one `=`, the first.
    pub fn accumulator(&self, number: u32) -> Option<&NamedNumber>
        ensures { option_copied result ≡ named_number self.now number }
    {
        let wanted = Word::low_bits(u64::from(number));
        self.numbers
            .iter()
            .find(|it| it.is_shown && it.value == wanted)
    }
}

impl Literals {
    /// Whether an address is a literal's.
    pub fn have(self, place: Address) -> bool
        ensures { result ≡ have place self }
    {
        self.first <= place.number() && place.number() < self.end
    }
}

/// The labels so far. It is not yet known where the current block ends.
#[derive(Drop)]
struct Gathered {
    /// Those of blocks that ended.
    closed: Vec<Label>,
    /// Those of the current block.
    current: Vec<Label>,
    /// The address of the last LOC or END; 0 before the first.
    end: u32,
}

impl Gathered {
    /// Adds the labels of a line at this address.
    fn add(&mut self, line: &Line, place: u32) -> Result<(), AllocError>
        ensures closed { self.new.closed ≡ self.old.closed }
        ensures current { OnOk result (self.new.current.items ≡ self.old.current.items ++ labels_at place 0 line.now.labels) }
        ensures end { self.new.end ≡ self.old.end }
    {
        let Some(place) = Address::try_new(place) else {
            return Ok(());
        };
        let symbols = line.labels.as_slice();
        'symbols: for symbol in symbols {
            let name = symbol.sixbit();
            let end = place.number() + 1;
            self.current.push(Label { name, place, end })?;
        }
        Ok(())
    }

    /// Ends the current block at this address.
    fn close(&mut self, end: u32) -> Result<(), AllocError>
        ensures closed { OnOk result (self.new.closed.items ≡ self.old.closed.items ++ map (with_end end) self.old.current.items) }
        ensures current { OnOk result (self.new.current.items ≡ []) }
        ensures end { self.new.end ≡ self.old.end }
    {
        'labels: for i in 0..self.current.len() {
            let label = self.current[i];
            self.closed.push(Label {
                name: label.name,
                place: label.place,
                end: label.end.max(end),
            })?;
        }
        self.current.clear();
        Ok(())
    }

    /// Adds the labels of a line at this address, and ends the block there if the line is LOC or END.
    fn add_line(&mut self, line: &Line, place: u32) -> Result<(), AllocError>
        ensures labels { OnOk result (AreAdded (ends_block line.now.statement) place self.old.closed.items
            (self.old.current.items ++ labels_at place 0 line.now.labels) self.new.closed.items self.new.current.items) }
        ensures end { OnOk result (self.new.end ≡ (if ends_block line.now.statement then place else self.old.end)) }
    {
        self.add(line, place)?;
        if ends_block(line) {
            self.close(place)?;
            self.end = place;
        }
        Ok(())
    }
}

/// Whether a line ends a block of labels: it is LOC or END.
fn ends_block(line: &Line) -> bool
    ensures { result ≡ ends_block line.now.statement }
{
    matches!(&line.statement, Some(Statement::Loc(_) | Statement::End(_)))
}

/// The address after the words that stand from `first` on without a gap.
fn end_of_run(image: &Image, first: u32) -> u32
    ensures { result ≡ run_end first image.now.words.items }
{
    let mut end = first;
    'words: for (place, _) in image.words.as_slice() {
        if *place == end {
            end = end.saturating_add(1);
        }
    }
    end
}

/// The literals of a source that begin at an address, if it has any.
fn literals_of(layout: &Layout, image: &Image, first: u32) -> Literals
    ensures { result ≡ literals_of first layout.now.literals.items image.now.words.items }
{
    let has_none = layout.literals.as_slice().is_empty();
    Literals {
        first,
        end: if has_none {
            first
        } else {
            end_of_run(image, first)
        },
    }
}

/// The labels and the literals of a source, by its lines, their layout and the image that they make.
pub fn places_of(
    alloc: Global,
    lines: &[Line],
    layout: &Layout,
    image: &Image,
) -> Result<Places, AllocError>
    ensures { IfOk result (λ places. ArePlaces places lines.now layout.now.addresses.items layout.now.literals.items image.now.words.items) }
{
    let mut gathered = Gathered {
        closed: Vec::new(alloc),
        current: Vec::new(alloc),
        end: 0,
    };
    let addresses = layout.addresses.as_slice();
    let most = lines.len().min(addresses.len());
    'lines: for i in 0..most {
        let place = clamped(&addresses[i], MEMORY_SIZE) as u32;
        gathered.add_line(&lines[i], place)?;
    }
    gathered.close(0)?;
    let literals = literals_of(layout, image, gathered.end);
    Ok(Places {
        labels: gathered.closed,
        literals,
        pools: Vec::new(alloc),
        numbers: Vec::new(alloc),
    })
}
