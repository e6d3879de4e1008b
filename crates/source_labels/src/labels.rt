//! Labels, and the addresses that are written by them.
ghost use Rattle.std.specs.Prelude.{◌≡◌, ◌<◌, ◌≤◌, ◌↔◌, [], All, None, IsNone, IfSome, Contains};
ghost use Rattle.std.specs.Fmt.{WritesOnOk};
ghost use Rattle.source_labels.specs.Labels.{latest_from, name_words, nearer, nearest_label, reach};

use std::fmt;
use word36::Address;

/// A label of a source. Its own address and those behind it in its block are written by it.
#[derive(Clone, Copy, Debug)]
pub struct Label {
    /// Its six characters in SIXBIT, the first in the highest bits. Blanks, of code 0, follow a shorter name.
    pub name: u64,
    /// Its address.
    pub place: Address,
    /// The first address behind it that is not written by it: the next LOC, or END, ends its block there.
    pub end: u32,
}

/// The character that a number has in its low six bits, in SIXBIT; nothing for a blank, of code 0.
#[derive(Clone, Copy)]
struct Character(u64);

impl fmt::Display for Character {
    ghost use Rattle.std.specs.Prelude.{Some};
    ghost use Rattle.source_labels.specs.Labels.{character_of};

    ghost output = { λ c. Some (character_of c.0) };

    fn fmt<W: fmt::Write>(&self, f: &mut fmt::Formatter<W>) -> fmt::Result {
        let code = (self.0 % 64) as u8;
        if code == 0 {
            return Ok(());
        }
        f.write_char(char::from(code + 0o40))
    }
}

/// Writes a name of six characters in SIXBIT without its blanks.
pub fn write_name<W: fmt::Write>(name: u64, f: &mut fmt::Formatter<W>) -> fmt::Result
    ensures { WritesOnOk W.write_str_gives f.old result (name_words name) f.new }
{
    let (one, two, three) = (
        Character(name >> 30),
        Character(name >> 24),
        Character(name >> 18),
    );
    let (four, five, six) = (Character(name >> 12), Character(name >> 6), Character(name));
    write!(f, "{one}{two}{three}{four}{five}{six}")
}

impl fmt::Display for Label {
    ghost use Rattle.std.specs.Prelude.{Some};
    ghost use Rattle.source_labels.specs.Labels.{name_words};

    ghost output = { λ l. Some (name_words l.name) };

    fn fmt<W: fmt::Write>(&self, f: &mut fmt::Formatter<W>) -> fmt::Result {
        write_name(self.name, f)
    }
}

/// How near a label is to an address: the later the label the nearer, and 0 where the address is not in `label` ..
/// `end`.
fn reach(place: Address, label: Address, end: u32) -> u32
    ensures { result ≡ reach place label end }
{
    if label <= place && place.number() < end {
        label.number() + 1
    } else {
        0
    }
}

/// The nearer of a label, if there is one, and another; of two at one address the other.
fn nearer(place: Address, best: Option<Label>, other: Label) -> Label
    ensures { result ≡ nearer place best other }
{
    match best {
        Some(best) if reach(place, other.place, other.end) < reach(place, best.place, best.end) => {
            best
        }
        _ => other,
    }
}

/// The label that is nearest to an address, if there is any label; of several that are as near the last.
fn latest(labels: &[Label], place: Address) -> Option<Label>
    ensures value { result ≡ latest_from place None labels.now }
    ensures empty { IsNone result ↔ (labels.now ≡ []) }
    ensures there { IfSome result (λ l. Contains labels.now l) }
    ensures most { IfSome result (λ l. All (λ m. reach place m.place m.end ≤ reach place l.place l.end) labels.now) }
{
    let mut best = None;
    for label in labels {
        best = Some(nearer(place, best, *label));
    }
    best
}

/// The label at an address or, of those before it in its block, the nearest; of several at one address the last.
#[tactic(auto, using(crate::proofs::Nearby::nearest_of, crate::proofs::Nearby::none_before, crate::proofs::Nearby::none_within))]
pub fn nearest(labels: &[Label], place: Address) -> Option<Label>
    ensures value { result ≡ nearest_label labels.now place }
    ensures there { IfSome result (λ l. Contains labels.now l) }
    ensures before { IfSome result (λ l. l.place ≤ place) }
    ensures within { IfSome result (λ l. place < l.end) }
    ensures nearest { IfSome result (λ l. All (λ m. m.place ≤ place → place < m.end → m.place ≤ l.place) labels.now) }
    ensures none { result ≡ None → All (λ m. m.place ≤ place → m.end ≤ place) labels.now }
{
    let label = latest(labels, place)?;
    if label.place > place || label.end <= place.number() {
        return None;
    }
    Some(label)
}
