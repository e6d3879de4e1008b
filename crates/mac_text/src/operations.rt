//! Operations by their symbols.

ghost use Rattle.std.specs.Prelude.{◌≡◌, true, Some, None, IfSome};
ghost use Rattle.std.specs.List.{list_all};
ghost use Rattle.ka_isa.specs.Operations.{named_of};
ghost use Rattle.mac_text.specs.Characters.{is_name_character};
ghost use Rattle.mac_text.specs.Names.{folded};
ghost use Rattle.mac_text.specs.Keywords.{form_of};

use crate::symbol::Symbol;
use ka_isa::{Named, operation_of_key};

/// The operation of a name, where it is the name of one.
pub fn operation(name: &[u8]) -> Option<Named>
    requires { list_all is_name_character name.now ≡ true }
    ensures form { IfSome result (λ named. form_of (folded name.now) ≡ None) }
    ensures named { IfSome result (λ named. named_of (folded name.now) ≡ Some named) }
{
    operation_of_key(Symbol::of(name).sixbit())
}
