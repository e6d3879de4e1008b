ghost use Rattle.std.specs.Prelude.{◌≡◌, ℕ, ◌+◌, ◌%◌, ◌<◌, ◌≤◌, Some, None, cond, nat_eq, nat_le, nat_lt};
ghost use Rattle.companion_tests.specs.Counting.{counted, equal_is_same, same_is_equal};

use state_search::{Labels, Moves, Outcome, Property, Unwatched, all_labels, find_witness, search};
use std::alloc::{AllocError, Global};
use std::test::Fail;

/// A counter: move 0 adds one and move 1 adds three, up to `limit`.
#[derive(Drop)]
struct Counter {
    limit: u32,
}

impl Moves for Counter {
    type State = u32;

    type View = u32;

    type Room = ();

    ghost first = { λ _. 0 };

    ghost count = { λ _. 2 };

    ghost next = { λ s x k. counted s.limit x k };

    ghost shown = { λ _ x. x };

    ghost IsSound = { λ s x. x ≤ s.limit };

    ghost Extends = { λ s t. t ≡ s };

    fn first_state(&mut self, _alloc: Global) -> Result<u32, AllocError> {
        Ok(0)
    }

    fn make_room(&self, _alloc: Global) -> Result<(), AllocError> {
        Ok(())
    }

    fn count_moves(&self) -> usize {
        2
    }

    fn make_move(
        &mut self,
        _alloc: Global,
        _room: &mut (),
        state: &u32,
        by: usize,
    ) -> Result<Option<u32>, AllocError> {
        let step = if by == 0 { 1 } else { 3 };
        if step <= self.limit - *state {
            Ok(Some(*state + step))
        } else {
            Ok(None)
        }
    }

    ghost use Rattle.std.proofs.Common.{ap, refl, subst, sym, ◌∙◌};

    ghost equal_are_same = { λ _ x y _ _ e. equal_is_same x y e };

    ghost same_are_equal = { λ _ x y _ _ e. same_is_equal x y e };

    ghost extends_itself = { λ _. refl };

    ghost extends_on = { λ _ _ _ e f. f ∙ e };

    ghost sound_stays = { λ s t x e h. subst (λ v. x ≤ v.limit) (sym e) h };

    ghost shown_stays = { λ _ _ _ _ _. refl };

    ghost first_stays = { λ _ _ _. refl };

    ghost count_stays = { λ _ _ _. refl };

    ghost next_stays = { λ s t e. ap (λ v x k. counted v.limit x k) e };
}

#[derive(Drop)]
struct Is(u32);

impl Property<Counter> for Is {
    ghost holds = { λ s _ x. nat_eq x s.0 };

    fn test(
        &self,
        _alloc: Global,
        _system: &Counter,
        _room: &mut (),
        state: &u32,
    ) -> Result<bool, AllocError> {
        Ok(*state == self.0)
    }
}

#[test]
fn counts(rt: HostRuntime) -> Result<(), Fail> {
    let mut system = Counter { limit: 20 };
    match search(rt.alloc(), &mut system, 100, &mut Unwatched)? {
        Outcome::All(kept) => {
            assert_eq!(rt; kept.len(), 21);
            let found = find_witness(rt.alloc(), &system, &kept, &Is(11))?.ok_or("none")?;
            assert_eq!(rt; found.moves.as_slice(), [0, 0, 1, 1, 1].as_slice());
            assert!(rt; find_witness(rt.alloc(), &system, &kept, &Is(21))?.is_none());
        }
        Outcome::GaveUp(_) => assert!(rt; false),
    }
    Ok(())
}

#[test]
fn gives_up(rt: HostRuntime) -> Result<(), Fail> {
    match search(rt.alloc(), &mut Counter { limit: 20 }, 20, &mut Unwatched)? {
        Outcome::All(_) => assert!(rt; false),
        Outcome::GaveUp(n) => assert_eq!(rt; n, 20),
    }
    Ok(())
}

/// A move is written with the state from which it is made, where that is odd.
#[derive(Drop)]
struct Odd;

impl Labels<Counter> for Odd {
    ghost label = { λ _ _ x k. cond (nat_eq (x % 2) 1) (Some x) None };

    fn label_of(
        &self,
        _alloc: Global,
        _system: &Counter,
        _room: &mut (),
        state: &u32,
        _by: usize,
    ) -> Result<Option<usize>, AllocError> {
        if *state % 2 == 1 {
            Ok(Some(*state as usize))
        } else {
            Ok(None)
        }
    }
}

#[test]
fn gathers_labels(rt: HostRuntime) -> Result<(), Fail> {
    let mut system = Counter { limit: 6 };
    match search(rt.alloc(), &mut system, 7, &mut Unwatched)? {
        Outcome::All(kept) => {
            let labels = all_labels(rt.alloc(), &system, &kept, &Odd)?;
            assert_eq!(rt; labels.len(), 3);
            assert!(rt; labels.contains(&1) && labels.contains(&3) && labels.contains(&5));
        }
        Outcome::GaveUp(_) => assert!(rt; false),
    }
    Ok(())
}
