//! Tables of what states have in common, so that a state is kept as a few numbers.
ghost use Rattle.std.specs.Prelude.{◌≡◌, ◌<◌, ◌+◌, ◌++◌, ℕ, [], IfOk, OnOk, length, replicate, slice_index, slice_set, take};
ghost use Rattle.std.specs.List.{IsDistinct};
ghost use Rattle.state_search.specs.Parts.{AreGrown};
ghost use Rattle.lockcheck_orders.specs.Tables.{form_of, numbers_at, same_vector, unknown};

use crate::kept::{KeptRequest, KeptState, KnownMove};
use state_search::Parts;
use std::alloc::{AllocError, Global};

/// The requests and the vectors that states are made of, each with a number.
#[derive(Drop)]
pub struct Tables {
    /// Requests.
    pub requests: Parts<KeptRequest>,
    /// Vectors: of the numbers of requests, and of how many calls the jobs of a half have made.
    pub vectors: Parts<Vec<u32>>,
    /// Calls that are known.
    pub known: Vec<KnownMove>,
}

/// No call is known: no script has this line.
const UNKNOWN: KnownMove = KnownMove {
    from: 0,
    after: 0,
    line: u16::MAX,
    waits: false,
    circle: false,
};

impl Tables {
    /// Empty tables.
    pub fn new(alloc: Global) -> Self
        ensures requests { result.requests ≡ [] }
        ensures vectors { result.vectors ≡ [] }
        ensures known { result.known.items ≡ [] }
    {
        Tables {
            requests: Parts::new(alloc),
            vectors: Parts::new(alloc),
            known: Vec::new(alloc),
        }
    }

    /// How many calls the job at position `by` has made.
    pub fn made(&self, state: KeptState, by: usize) -> u32
        requires front { state.front < length self.now.vectors }
        requires back { state.back < length self.now.vectors }
        requires within { by < length (form_of self.now state).made }
        ensures { result ≡ slice_index (form_of self.now state).made by }
    {
        let front = self.vectors.part(state.front);
        if by < front.len() {
            return front[by];
        }
        let back = self.vectors.part(state.back);
        back[by - front.len()]
    }
}

/// Counts of which the one at a position is one more. A count that does not fit 4 bytes is refused as memory is.
fn with_more(counts: &Vec<u32>, at: usize) -> Result<Vec<u32>, AllocError>
    requires { at < length counts.now.items }
    ensures { IfOk result (λ more. more.items ≡ slice_set counts.now.items at (slice_index counts.now.items at + 1)) }
{
    let mut more = counts.clone()?;
    let Some(count) = more[at].checked_add(1) else {
        return Err(AllocError);
    };
    more[at] = count;
    Ok(more)
}

/// The number of a vector that has one more at a position than the one with this number.
fn number_with_more(
    vectors: &mut Parts<Vec<u32>>,
    number: u32,
    at: usize,
) -> Result<u32, AllocError>
    requires there { number < length vectors.old }
    requires within { at < length (numbers_at vectors.old number) }
    ensures more { IfOk result (λ n. numbers_at vectors.new n
        ≡ slice_set (numbers_at vectors.old number) at (slice_index (numbers_at vectors.old number) at + 1)) }
    ensures there { IfOk result (λ n. n < length vectors.new) }
    ensures grown { OnOk result (AreGrown vectors.old vectors.new) }
    ensures unique { OnOk result (IsDistinct same_vector vectors.new) }
{
    let more = with_more(vectors.part(number), at)?;
    let number = vectors.number_of(more)?;
    Ok(number)
}

/// The numbers of both halves when the job at position `by` has made one call more.
pub fn one_more(tables: &mut Tables, state: KeptState, by: usize) -> Result<(u32, u32), AllocError>
    requires front { state.front < length tables.old.vectors }
    requires back { state.back < length tables.old.vectors }
    requires within { by < length (form_of tables.old state).made }
    ensures made { IfOk result (λ p. numbers_at tables.new.vectors p.0 ++ numbers_at tables.new.vectors p.1
        ≡ slice_set (form_of tables.old state).made by (slice_index (form_of tables.old state).made by + 1)) }
    ensures front { IfOk result (λ p. length (numbers_at tables.new.vectors p.0) ≡ length (numbers_at tables.old.vectors state.front)) }
    ensures front_there { IfOk result (λ p. p.0 < length tables.new.vectors) }
    ensures back_there { IfOk result (λ p. p.1 < length tables.new.vectors) }
    ensures requests { OnOk result (tables.new.requests ≡ tables.old.requests) }
    ensures known { OnOk result (tables.new.known.items ≡ tables.old.known.items) }
    ensures grown { OnOk result (AreGrown tables.old.vectors tables.new.vectors) }
    ensures unique { OnOk result (IsDistinct same_vector tables.new.vectors) }
{
    let half = tables.vectors.part(state.front).len();
    if by < half {
        let front = number_with_more(&mut tables.vectors, state.front, by)?;
        Ok((front, state.back))
    } else {
        let back = number_with_more(&mut tables.vectors, state.back, by - half)?;
        Ok((state.front, back))
    }
}

/// Puts a call that is known in its place. A place that does not fit is refused as memory is.
pub fn keep_move(
    known: &mut Vec<KnownMove>,
    place: usize,
    found: KnownMove,
) -> Result<(), AllocError>
    ensures { OnOk result ((n : ℕ) × (m : ℕ)
        × (known.new.items ≡ slice_set (take n known.old.items ++ replicate m unknown) place found)) }
{
    let Some(end) = place.checked_add(1) else {
        return Err(AllocError);
    };
    let len = known.len().max(end);
    known.resize(len, UNKNOWN)?;
    known[place] = found;
    Ok(())
}
