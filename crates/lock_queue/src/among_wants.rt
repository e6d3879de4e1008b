//! Questions about the wants of one request.
ghost use Rattle.std.specs.Prelude.{◌≡◌, ◌+◌, ◌<◌, filter, nat_le, sum_by, MatchOption};
ghost use Rattle.std.specs.List.{list_all, list_any};
ghost use Rattle.lock_queue.specs.Enqueues.{same_pool_size, are_alike};
ghost use Rattle.lock_queue.specs.Jobs.{is_in_the_way};
ghost use Rattle.lock_queue.specs.Keys.{same_key};
ghost use Rattle.lock_queue.specs.Queue.{names, agree, is_pooled, amount_of};
ghost use Rattle.lock_queue.specs.StatusWords.{first_level};

use crate::{Key, Level, Pool, Want};

/// Whether one of the wants is of the key.
pub fn names_key(wants: &[Want], key: &Key) -> bool
    ensures { result ≡ names wants.now key.now }
{
    wants.iter().any(|w| w.key == *key)
}

/// Whether two wants of one key agree: both are shared, and of one group.
pub fn agree(v: &Want, w: &Want) -> bool
    ensures { result ≡ agree v.now w.now }
{
    v.shared && w.shared && v.group == w.group
}

/// Whether a want is of a pool.
pub fn is_pooled(w: &Want) -> bool
    ensures { result ≡ is_pooled w.now }
{
    w.pool.is_some()
}

/// Whether each of these wants that is of a want's key agrees with it.
pub fn all_agree_in(wants: &[Want], w: &Want) -> bool
    ensures { result ≡ list_all (λ v. agree v w.now)
        (filter (λ v. same_key v.key w.now.key) wants.now) }
{
    for v in wants {
        if v.key == w.key && !agree(v, w) {
            return false;
        }
    }
    true
}

/// What is left of the room once these wants of the key have taken their amounts; `None` where they
/// want more than there is.
pub fn room_beside(wants: &[Want], key: &Key, room: u32) -> Option<u32>
    ensures { let taken = sum_by amount_of (filter (λ v. same_key v.key key.now) wants.now) in
        MatchOption result (room < taken) (λ left. left + taken ≡ room) }
{
    let mut left = room;
    for v in wants {
        if v.key == *key
            && let Some(pool) = v.pool
        {
            left = left.checked_sub(pool.amount())?;
        }
    }
    Some(left)
}

/// Whether one of these wants of the key is of a pool.
pub fn is_pooled_in(wants: &[Want], key: &Key) -> bool
    ensures { result ≡ list_any is_pooled (filter (λ v. same_key v.key key.now) wants.now) }
{
    for v in wants {
        if v.key == *key && is_pooled(v) {
            return true;
        }
    }
    false
}

#[inline]
fn is_same_pool_size(a: Option<Pool>, b: Option<Pool>) -> bool
    ensures { result ≡ same_pool_size a b }
{
    match (a, b) {
        (Some(a), Some(b)) => a.size() == b.size(),
        (None, None) => true,
        (Some(_), None) | (None, Some(_)) => false,
    }
}

/// Whether two wants of one key are alike: of one level, and of pools of one size or of none.
#[inline]
pub fn is_alike(v: &Want, w: &Want) -> bool
    ensures { result ≡ are_alike v.now w.now }
{
    v.level == w.level && is_same_pool_size(v.pool, w.pool)
}

/// Whether these wants of a want's key have its level and its pool's size. Most wants have them,
/// whatever their key, so keys are compared last.
pub fn are_alike_in(wants: &[Want], w: &Want) -> bool
    ensures { result ≡ list_all (λ v. are_alike v w.now)
        (filter (λ v. same_key v.key w.now.key) wants.now) }
{
    for v in wants {
        if !is_alike(v, w) && v.key.is_same(&w.key) {
            return false;
        }
    }
    true
}

/// Whether one of the wants has this level or a higher one.
pub fn reach_level(wants: &[Want], level: Level) -> bool
    ensures { result ≡ list_any (λ v. nat_le level v.level) wants.now }
{
    wants.iter().any(|v| level.number() <= v.level.number())
}

/// Whether an earlier want of a key stands in the way of a later one: it is of a pool, or the two do not
/// agree.
fn is_in_the_way(v: &Want, w: &Want) -> bool
    ensures { result ≡ is_in_the_way v.now w.now }
{
    is_pooled(v) || !agree(v, w)
}

/// Whether one of these wants of a want's key stands in its way.
pub fn some_in_the_way(wants: &[Want], w: &Want) -> bool
    ensures { result ≡ list_any (λ v. is_in_the_way v w.now)
        (filter (λ v. same_key v.key w.now.key) wants.now) }
{
    for v in wants {
        if v.key == w.key && is_in_the_way(v, w) {
            return true;
        }
    }
    false
}

/// The level of the first of these wants that is of the key.
pub fn level_in(wants: &[Want], key: &Key) -> Option<Level>
    ensures { result ≡ first_level (filter (λ w. same_key w.key key.now) wants.now) }
{
    for w in wants {
        if w.key == *key {
            return Some(w.level);
        }
    }
    None
}
