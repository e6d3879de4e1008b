//! Addresses as a person reads them.
ghost use Rattle.std.specs.Prelude.{Some};
ghost use Rattle.std.specs.Fmt.{WritesOnOk};
ghost use Rattle.source_labels.specs.Spots.{label_spot, literal_spot, offset_words, spot_words};

use crate::labels::{Label, nearest};
use crate::places::{Literals, Places};
use std::fmt;
use word36::Address;

/// An address as a person reads it: by the nearest label of its block, as `LOOP+3` with the offset in octal; among literals
/// `[..]`, and `[..+3]` three words after the first of them, unless a label in them is nearer; elsewhere six octal digits.
#[derive(Clone, Copy, Debug)]
pub struct Spot<'a> {
    /// The program's labels and literals.
    pub places: &'a Places,
    /// The address.
    pub place: Address,
}

/// How far an address is after another; nothing if they are the same.
#[derive(Clone, Copy)]
struct Offset {
    place: u32,
    from: u32,
}

impl fmt::Display for Offset {
    ghost output = { λ o. Some (offset_words o.place o.from) };

    fn fmt<W: fmt::Write>(&self, f: &mut fmt::Formatter<W>) -> fmt::Result {
        let offset = self.place.saturating_sub(self.from);
        if offset == 0 {
            return Ok(());
        }
        write!(f, "+{offset:o}")
    }
}

/// Writes an address by a label.
fn write_by_label<W: fmt::Write>(
    place: Address,
    label: &Label,
    f: &mut fmt::Formatter<W>,
) -> fmt::Result
    ensures { WritesOnOk W.write_str_gives f.old result (label_spot place label.now) f.new }
{
    let offset = Offset {
        place: place.number(),
        from: label.place.number(),
    };
    write!(f, "{label}{offset}")
}

/// Writes an address among literals.
fn write_by_literals<W: fmt::Write>(
    place: Address,
    literals: Literals,
    f: &mut fmt::Formatter<W>,
) -> fmt::Result
    ensures { WritesOnOk W.write_str_gives f.old result (literal_spot place literals) f.new }
{
    let offset = Offset {
        place: place.number(),
        from: literals.first,
    };
    write!(f, "[..{offset}]")
}

impl fmt::Display for Spot<'_> {
    ghost output = { λ s. Some (spot_words s.places.now s.place) };

    fn fmt<W: fmt::Write>(&self, f: &mut fmt::Formatter<W>) -> fmt::Result {
        let (places, place) = (self.places, self.place);
        let label = nearest(places.labels.as_slice(), place);
        match (label, places.literals_at(place)) {
            (None, None) => write!(f, "{place}"),
            (None, Some(literals)) => write_by_literals(place, literals, f),
            (Some(label), None) => write_by_label(place, &label, f),
            (Some(label), Some(literals)) => {
                if literals.first <= label.place.number() {
                    write_by_label(place, &label, f)
                } else {
                    write_by_literals(place, literals, f)
                }
            }
        }
    }
}
