//! How a want that is asked for meets another one.
ghost use Rattle.std.specs.Prelude.{◌≡◌};
ghost use Rattle.std.specs.List.{find};
ghost use Rattle.lock_reasons.specs.Meetings.{meets};

use lock_queue::steps::{is_alike, is_pooled};
use lock_queue::{RequestId, Want};

/// How a want that is asked for meets another one.
#[derive(Clone, Copy, Drop)]
pub enum Rule {
    /// The other is of the same key, and has another level, or another size of its pool (code 9).
    Differs,
    /// The other is of the same key (code 11).
    Names,
    /// The level of the other is as high or higher (code 10).
    Reaches,
    /// The other is of the same key, and of a pool (code 8).
    Pools,
}

/// A want in the queue.
#[derive(Drop)]
pub struct Present {
    /// Whose it is, 1 to 63.
    pub job: u8,
    /// The number of its request.
    pub id: RequestId,
    /// The want.
    pub want: Want,
}

/// Whether a want meets another one so.
fn meets(rule: Rule, w: &Want, v: &Want) -> bool
    ensures { result ≡ meets rule w.now v.now }
{
    match rule {
        Rule::Differs => v.key == w.key && !is_alike(v, w),
        Rule::Names => v.key == w.key,
        Rule::Reaches => w.level.number() <= v.level.number(),
        Rule::Pools => v.key == w.key && is_pooled(v),
    }
}

/// The first of these wants that a want meets so.
pub fn first_met(wants: &[Want], rule: Rule, w: &Want) -> Option<Want>
    ensures { result ≡ find (meets rule w.now) wants.now }
{
    for v in wants {
        if meets(rule, w, v) {
            return Some(v.copied());
        }
    }
    None
}
