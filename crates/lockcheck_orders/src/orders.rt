//! Orders of calls, as a system for a search.
ghost use Rattle.std.specs.Prelude.{◌≡◌, ◌<◌, ◌≤◌, IfOk, IfSome, MatchOption, None, OnOk, OnSome, [], length, slice_get, slice_index, true};
ghost use Rattle.std.specs.List.{list_all};
ghost use Rattle.word36.specs.declared.sizes.TheConstants.{MOST_REQUESTS};
ghost use Rattle.lock_queue.specs.WellFormed.{are_well_formed};
ghost use Rattle.lockcheck_orders.specs.Orders.{first_state, left_by, next_line, reply_to};
ghost use Rattle.lockcheck_orders.specs.NormalOrders.{next_normal};
ghost use Rattle.lockcheck_orders.specs.Origins.{IsKept};
ghost use Rattle.lockcheck_orders.specs.Packing.{came_from_some, unpacked};
ghost use Rattle.lockcheck_orders.specs.Programs.{are_right_lines, due, jobs_of};
ghost use Rattle.lockcheck_orders.specs.Tables.{IsListed, IsMade, IsRight, IsSoundState, Learns, form_of};

use crate::circles::has_circle;
use crate::desk::Desk;
use crate::kept::{KeptState, KnownMove};
use crate::lines::{Line, MOST_LINES};
use crate::packing::pack_requests;
use crate::programs::Programs;
use crate::tables::{Tables, keep_move, one_more};
use crate::unpacking::set_all_out;
use lock_queue::{LockReply, Request};
use state_search::Moves;
use std::alloc::{AllocError, Global};
use std::marker::Model;

/// A state as the contracts speak of it: the requests in order of arrival, and how many calls each of
/// the jobs has made. The code keeps states packed and never makes one of these.
pub struct Seen {
    /// The requests.
    pub requests: Vec<Request>,
    /// How many calls each job has made.
    pub made: Vec<u16>,
}

impl Model for Seen {
    ghost use Rattle.lockcheck_orders.specs.Orders.{State};

    ghost Value = { State };

    ghost view = { λ s. record { requests = s.requests.items; made = s.made.items } };
}

/// The orders of the calls of some programs, and the calls that are known.
#[derive(Drop)]
pub struct Orders<'a> {
    /// The programs.
    pub programs: &'a Programs,
    /// What the states are made of.
    pub tables: Tables,
}

/// Fills the desk with the requests of a state.
pub fn set_state_out(programs: &Programs, tables: &Tables, desk: &mut Desk, state: KeptState)
    requires listed { IsListed tables.now state.requests }
    requires kept { IsKept programs.now (form_of tables.now state) }
    ensures { desk.new ≡ (unpacked programs.now (form_of tables.now state)).requests }
{
    set_all_out(
        desk,
        programs.lines(),
        &tables.requests,
        tables.vectors.part(state.requests).as_slice(),
    );
}

/// The position of the next line of the job at position `by` of the jobs, whether it waits or not.
pub fn line_due(programs: &Programs, tables: &Tables, state: KeptState, by: usize) -> Option<usize>
    requires sound { IsSoundState programs.now tables.now state }
    requires within { by < length (jobs_of programs.now) }
    ensures line { MatchOption result
        (due programs.now (slice_index (jobs_of programs.now) by)
        (slice_index (form_of tables.now state).made by) ≡ None)
        (λ i. slice_get programs.now i
        ≡ due programs.now (slice_index (jobs_of programs.now) by)
        (slice_index (form_of tables.now state).made by)) }
    ensures there { IfSome result (λ i. i < length programs.now) }
{
    let job = programs.jobs()[by];
    programs.due(job, tables.made(state, by))
}

/// The place of the call of the job at position `by` of the jobs among those that are known.
fn place_of(programs: &Programs, from: u32, by: usize) -> usize {
    (from as usize)
        .saturating_mul(programs.jobs().len())
        .saturating_add(by)
}

/// The known call of line `line`, which is due for the job at position `by`.
pub fn known_move(
    programs: &Programs,
    tables: &Tables,
    from: u32,
    by: usize,
    line: usize,
) -> Option<KnownMove>
    requires right { IsRight programs.now tables.now }
    requires there { line < length programs.now }
    ensures from { IfSome result (λ k. k.from ≡ from) }
    ensures line { IfSome result (λ k. k.line ≡ line) }
    ensures made { IfSome result (IsMade programs.now tables.now) }
{
    let place = place_of(programs, from, by);
    if place >= tables.known.len() {
        return None;
    }
    let known = tables.known[place];
    if known.from == from && known.line as usize == line && line < MOST_LINES {
        Some(known)
    } else {
        None
    }
}

/// The position of the next line of the job at position `by` of the jobs, if the job can make a call. In
/// that case the desk has the requests of the state.
pub fn line_to_make(
    programs: &Programs,
    tables: &Tables,
    desk: &mut Desk,
    state: KeptState,
    by: usize,
) -> Option<usize>
    requires sound { IsSoundState programs.now tables.now state }
    requires within { by < length (jobs_of programs.now) }
    ensures line { MatchOption result
        (next_line programs.now (unpacked programs.now (form_of tables.now state)) by ≡ None)
        (λ i. slice_get programs.now i
        ≡ next_line programs.now (unpacked programs.now (form_of tables.now state)) by) }
    ensures there { IfSome result (λ i. i < length programs.now) }
    ensures desk { OnSome result (desk.new ≡ (unpacked programs.now (form_of tables.now state)).requests) }
{
    let Some(line) = line_due(programs, tables, state, by) else {
        return None;
    };
    set_state_out(programs, tables, desk, state);
    if desk.is_waiting(programs.jobs()[by]) {
        None
    } else {
        Some(line)
    }
}

/// Does what line `i` asks for, on the desk.
pub fn perform_line(desk: &mut Desk, lines: &[Line], i: usize) -> LockReply
    requires there { i < length lines.now }
    requires right { are_right_lines lines.now ≡ true }
    requires come { list_all (came_from_some lines.now) desk.old ≡ true }
    ensures requests { desk.new ≡ left_by lines.now desk.old i }
    ensures reply { result ≡ reply_to lines.now desk.old i }
    ensures well { are_well_formed desk.new ≡ true }
    ensures few { length desk.new ≤ MOST_REQUESTS }
    ensures come { list_all (came_from_some lines.now) desk.new ≡ true }
{
    let line = &lines[i];
    desk.perform(line.job, &line.step)
}

/// Finds out what line `line` makes of the requests of a state.
fn find_move(
    alloc: Global,
    programs: &Programs,
    tables: &mut Tables,
    desk: &mut Desk,
    state: KeptState,
    line: usize,
) -> Result<KnownMove, AllocError>
    requires sound { IsSoundState programs.now tables.old state }
    requires there { line < length programs.now }
    ensures from { IfOk result (λ k. k.from ≡ state.requests) }
    ensures line { IfOk result (λ k. k.line ≡ line) }
    ensures made { IfOk result (IsMade programs.now tables.new) }
    ensures learns { OnOk result (Learns programs.now tables.old programs.now tables.new) }
{
    let from = state.requests;
    set_state_out(programs, tables, desk, state);
    let lines = programs.lines();
    if desk.is_waiting(lines[line].job) {
        return Ok(KnownMove {
            from,
            after: from,
            line: line as u16,
            waits: true,
            circle: false,
        });
    }
    perform_line(desk, lines, line);
    let circle = has_circle(alloc, programs, desk)?;
    let numbers = pack_requests(alloc, lines, desk, &mut tables.requests)?;
    let after = tables.vectors.number_of(numbers)?;
    Ok(KnownMove {
        from,
        after,
        line: line as u16,
        waits: false,
        circle,
    })
}

/// What line `line`, which is due for the job at position `by`, makes of the requests of a state.
fn move_of(
    alloc: Global,
    programs: &Programs,
    tables: &mut Tables,
    desk: &mut Desk,
    state: KeptState,
    by: usize,
    line: usize,
) -> Result<KnownMove, AllocError>
    requires sound { IsSoundState programs.now tables.old state }
    requires there { line < length programs.now }
    ensures from { IfOk result (λ k. k.from ≡ state.requests) }
    ensures line { IfOk result (λ k. k.line ≡ line) }
    ensures made { IfOk result (IsMade programs.now tables.new) }
    ensures learns { OnOk result (Learns programs.now tables.old programs.now tables.new) }
{
    if let Some(known) = known_move(programs, tables, state.requests, by, line) {
        return Ok(known);
    }
    let found = find_move(alloc, programs, tables, desk, state, line)?;
    keep_move(&mut tables.known, place_of(programs, found.from, by), found)?;
    Ok(found)
}

impl<'a> Orders<'a> {
    /// The orders of these programs, of which nothing is known.
    pub fn new(alloc: Global, programs: &'a Programs) -> Self
        ensures { result.programs.now ≡ programs.now }
    {
        Orders {
            programs,
            tables: Tables::new(alloc),
        }
    }
}

impl Moves for Orders<'_> {
    type State = KeptState;

    type View = Seen;

    type Room = Desk;

    ghost first = { λ o. first_state o.programs.now };

    ghost count = { λ o. length (jobs_of o.programs.now) };

    ghost next = { λ o. next_normal o.programs.now };

    ghost shown = { λ o x. unpacked o.programs.now (form_of o.tables x) };

    ghost IsSound = { λ o x. IsSoundState o.programs.now o.tables x };

    ghost Extends = { λ o p. Learns o.programs.now o.tables p.programs.now p.tables };

    fn first_state(&mut self, alloc: Global) -> Result<KeptState, AllocError> {
        self.tables.known = Vec::with_capacity(alloc, self.tables.requests.len())?;
        let count = self.programs.jobs().len();
        let half = count / 2;
        let circle = has_circle(alloc, self.programs, &Desk::new(alloc)?)?;
        let requests = self.tables.vectors.number_of(Vec::new(alloc))?;
        let front = self
            .tables
            .vectors
            .number_of(Vec::from_elem(alloc, 0, half)?)?;
        let back = self
            .tables
            .vectors
            .number_of(Vec::from_elem(alloc, 0, count - half)?)?;
        Ok(KeptState {
            requests,
            front,
            back,
            circle,
        })
    }

    fn make_room(&self, alloc: Global) -> Result<Desk, AllocError> {
        Desk::new(alloc)
    }

    fn count_moves(&self) -> usize {
        self.programs.jobs().len()
    }

    fn make_move(
        &mut self,
        alloc: Global,
        room: &mut Desk,
        state: &KeptState,
        by: usize,
    ) -> Result<Option<KeptState>, AllocError> {
        let Some(line) = line_due(self.programs, &self.tables, *state, by) else {
            return Ok(None);
        };
        let found = move_of(
            alloc,
            self.programs,
            &mut self.tables,
            room,
            *state,
            by,
            line,
        )?;
        if found.waits {
            return Ok(None);
        }
        let (front, back) = one_more(&mut self.tables, *state, by)?;
        Ok(Some(KeptState {
            requests: found.after,
            front,
            back,
            circle: found.circle,
        }))
    }

    ghost use Rattle.std.proofs.Common.{ap};
    ghost use Rattle.lockcheck_orders.specs.Learning.{equal_are_same, same_are_equal, learns_itself, learns_on, sound_stays, shown_stays};

    ghost equal_are_same = { λ o x y a b e. equal_are_same o.programs.now o.tables x y e };

    ghost same_are_equal = { λ o x y a b e. same_are_equal o.programs.now o.tables x y a b e };

    ghost extends_itself = { λ o. learns_itself o.programs.now o.tables };

    ghost extends_on = { λ o p q e f. learns_on o.programs.now p.programs.now q.programs.now o.tables p.tables q.tables e f };

    ghost sound_stays = { λ o p x e h. sound_stays o.programs.now p.programs.now o.tables p.tables x e h };

    ghost shown_stays = { λ o p x e h. shown_stays o.programs.now p.programs.now o.tables p.tables x e h };

    ghost first_stays = { λ o p e. ap first_state e.same_lines };

    ghost count_stays = { λ o p e. ap (λ l. length (jobs_of l)) e.same_lines };

    ghost next_stays = { λ o p e. ap next_normal e.same_lines };
}
