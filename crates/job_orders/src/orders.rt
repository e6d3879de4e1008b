//! The orders in which jobs can take their turns, as a system of states and moves.
ghost use Rattle.std.specs.Prelude.{◌≡◌};
ghost use Rattle.job_moves.specs.Moves.{next};
ghost use Rattle.job_orders.specs.Systems.{Extended, IsSoundState, shown_by};

use crate::kept::KeptState;
use crate::machines::{Machine, pack, set_out, take_move};
use crate::start::Start;
use crate::tables::Tables;
use state_search::Moves;
use std::alloc::{AllocError, Global};

/// No memory: the machine on which moves are made is part of the system.
#[derive(Drop)]
pub struct NoRoom;

/// The orders of the turns of some jobs.
#[derive(Drop)]
pub struct Orders {
    /// The state in which they begin.
    pub start: Start,
    /// The machine on which moves are made, once there is one.
    pub machine: Option<Machine>,
    /// What the states are made of.
    pub tables: Tables,
}

impl Orders {
    /// The orders from there on, of which nothing is known.
    pub(crate) fn new(alloc: Global, start: Start) -> Self
        ensures { result.start ≡ start }
    {
        Orders {
            start,
            machine: None,
            tables: Tables::new(alloc),
        }
    }
}

impl Moves for Orders {
    type State = KeptState;

    type View = Machine;

    type Room = NoRoom;

    ghost first = { λ o. o.start.state };

    ghost count = { λ o. o.start.count };

    ghost next = { λ o. next o.start.most o.start.count };

    ghost shown = { λ o x. shown_by o.start o.tables x };

    ghost IsSound = { λ o x. IsSoundState o.start o.machine o.tables x };

    ghost Extends = { λ o p. Extended o.start o.machine o.tables p.start p.machine p.tables };

    fn first_state(&mut self, alloc: Global) -> Result<KeptState, AllocError> {
        let machine = self.start.bare_machine(alloc)?;
        self.machine = Some(machine);
        self.tables.are_right();
        let packed = self.start.pack(alloc, &mut self.tables)?;
        Ok(packed)
    }

    fn make_room(&self, _alloc: Global) -> Result<NoRoom, AllocError> {
        Ok(NoRoom)
    }

    fn count_moves(&self) -> usize {
        self.start.count() as usize
    }

    fn make_move(
        &mut self,
        alloc: Global,
        _room: &mut NoRoom,
        state: &KeptState,
        by: usize,
    ) -> Result<Option<KeptState>, AllocError> {
        let (count, most) = (self.start.count(), self.start.most());
        let Some(machine) = &mut self.machine else {
            unreachable!()
        };
        set_out(&self.tables, machine, *state)?;
        if !take_move(machine, count, most, by as u8)? {
            return Ok(None);
        }
        let packed = pack(alloc, &mut self.tables, machine, count, state)?;
        Ok(Some(packed))
    }

    ghost use Rattle.std.proofs.Common.{ap};
    ghost use Rattle.job_orders.specs.Sounding.{equal_are_same, extended_itself, extended_on, same_are_equal, shown_stays, sound_stays};

    ghost equal_are_same = { λ o x y a b e. equal_are_same o.start o.tables x y e };

    ghost same_are_equal = { λ o x y a b e. same_are_equal o.start o.machine o.tables x y a b e };

    ghost extends_itself = { λ o. extended_itself o.start o.machine o.tables };

    ghost extends_on = { λ o p q e f. extended_on o.start o.machine o.tables p.start p.machine p.tables q.start q.machine q.tables e f };

    ghost sound_stays = { λ o p x e h. sound_stays o.start o.machine o.tables p.start p.machine p.tables x e h };

    ghost shown_stays = { λ o p x e h. shown_stays o.start o.machine o.tables p.start p.machine p.tables x e h };

    ghost first_stays = { λ o p e. ap (λ b. b.state) e.begun };

    ghost count_stays = { λ o p e. ap (λ b. b.count) e.begun };

    ghost next_stays = { λ o p e. ap (λ b. next b.most b.count) e.begun };
}
