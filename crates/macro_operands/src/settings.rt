//! Values that the first pass needs, and what sets places and the radix.

use macro_faults::Fault;
use macro_names::Name;
use macro_state::{Assembly, Value};
use macro_stream::Place;

/// The greatest place.
const LAST_PLACE: i64 = 0o777_777;

/// Places from here on are one to the assembler: no word and no label stands there.
const MOST_PLACE: i64 = 0o1_000_000_000;

/// Begins a value that the first pass needs.
pub fn begin_needed(state: &mut Assembly) {
    state.missing = None;
    state.deferred = None;
}

/// The number of a value that the first pass needs, and that begins at a place.
pub fn needed(state: &mut Assembly, value: Value, what: Name, place: Place) -> i64 {
    if let Some(number) = state.known(value) {
        return number;
    }
    if state.told {
        state.fail_told();
    } else if let Some(report) = state.deferred {
        state.fail(report.place, report.fault);
    } else {
        let fault = match state.missing {
            Some(name) => Fault::Late(what, name),
            None => Fault::LateValue(what),
        };
        state.fail(place, fault);
    }
    0
}

/// The number of a value that has to be there, that the first pass needs, and that begins at a place.
pub fn required(
    state: &mut Assembly,
    value: Option<Value>,
    what: Name,
    fault: Fault,
    place: Place,
) -> i64 {
    match value {
        Some(value) => needed(state, value, what, place),
        None => {
            state.fail_statement(fault);
            0
        }
    }
}

/// PHASE, whose value begins at `start`.
pub fn set_phase(state: &mut Assembly, value: Option<Value>, what: Name, start: Place) {
    let place = required(state, value, what, Fault::Needs(what), start);
    if place < 0 || place > LAST_PLACE {
        state.fail(start, Fault::PlaceRange(place));
    }
    if !state.is_failed() {
        state.phase = Some(place.saturating_sub(state.counter));
    }
}

/// Keeps the counter that is used.
fn keep_counter(state: &mut Assembly) {
    state.phase = None;
    if state.absolute {
        state.kept_absolute = state.counter;
    } else {
        state.kept_relocatable = state.counter;
    }
}

/// The place that LOC or RELOC sets: a number without a label counts from 140 for RELOC.
fn place_of(number: i64, is_absolute: bool) -> i64 {
    if is_absolute {
        number
    } else {
        number.saturating_add(0o140)
    }
}

/// LOC and RELOC, whose value begins at `start`. Both end PHASE, and keep the other counter.
pub fn set_place(
    state: &mut Assembly,
    value: Option<Value>,
    what: Name,
    absolute: bool,
    start: Place,
) {
    let given = match value {
        Some(value) => Some(place_of(needed(state, value, what, start), absolute || value.placed)),
        None => None,
    };
    if state.is_failed() {
        return;
    }
    keep_counter(state);
    let kept = if absolute {
        state.kept_absolute
    } else {
        state.kept_relocatable
    };
    let place = given.unwrap_or(kept);
    if given.is_some() && place < 0 {
        return state.fail(start, Fault::PlaceRange(place));
    }
    state.absolute = absolute;
    state.counter = place.min(MOST_PLACE);
}

/// RADIX, whose value begins at `start`.
pub fn set_radix(state: &mut Assembly, value: Option<Value>, what: Name, start: Place) {
    let radix = required(state, value, what, Fault::Needs(what), start);
    if radix < 2 || radix > 10 {
        return state.fail(start, Fault::Radix(radix));
    }
    if !state.is_failed() {
        state.radix = radix as u8;
        state.number_radix = state.radix;
    }
}

/// The radix of the numbers that are being read.
pub fn number_radix(state: &Assembly) -> u8 {
    state.number_radix
}

/// Sets the radix of the numbers that are being read; gives the one before.
pub fn swap_radix(state: &mut Assembly, radix: u8) -> u8 {
    let kept = state.number_radix;
    state.number_radix = radix;
    kept
}
