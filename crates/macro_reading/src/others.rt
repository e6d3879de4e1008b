//! Operations and calls of other machines and other monitors.

ghost use Rattle.std.specs.Prelude.{◌≡◌, IsSome, IsTrue, None, false};
ghost use Rattle.macro_state.specs.Faults.{is_used_at};

use crate::searches::is_own;
use left_out::left_out;
use macro_names::{Name, text_of};
use macro_operations::{Operation, of_others};
use macro_state::Assembly;
use macro_stream::Place;

/// The operation or the call of another machine or another monitor that has a name, if these are taken and the source gives the
/// name no meaning of its own. Its use at a place is kept.
pub fn other_operation(state: &mut Assembly, name: Name, place: Place) -> Option<Operation>
    ensures untaken { state.old.takes_others ≡ false → result ≡ None }
    ensures unchanged { result ≡ None → state.new ≡ state.old }
    ensures noted { IsSome result → state.old.pass ≡ 2 → state.new.failure ≡ None → IsTrue (is_used_at state.new.others.items place name.sixbit) }
{
    if !state.takes_others || is_own(state, name) {
        return None;
    }
    let characters = text_of(name);
    let operation = of_others(characters.as_slice());
    match left_out(characters.as_slice()) {
        Some(reason) if operation.is_some() => {
            state.note_other(place, name, reason);
            operation
        }
        Some(_) | None => None,
    }
}
