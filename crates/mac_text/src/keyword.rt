//! What the first name of a statement stands for.

ghost use Rattle.std.specs.Prelude.{◌≡◌, codes, Some, None};
ghost use Rattle.mac_text.specs.Keywords.{form_of};

use crate::syntax::TextForm;

/// The forms of statements that begin with a name of their own.
#[derive(Clone, Copy, Debug, PartialEq, Eq)]
pub enum Form {
    Loc,
    End,
    Radix,
    Title,
    Xwd,
    Iowd,
    Exp,
    Point,
    Text(TextForm),
    Block,
}

/// The form that a name stands for; its letters are in upper case.
#[tactic(auto, unfolding(crate::specs::Keywords::form_of))]
pub fn form_of(name: &[u8]) -> Option<Form>
    ensures { result ≡ form_of name.now }
{
    if name == b"XWD".as_slice() {
        Some(Form::Xwd)
    } else if name == b"EXP".as_slice() {
        Some(Form::Exp)
    } else if name == b"LOC".as_slice() {
        Some(Form::Loc)
    } else if name == b"END".as_slice() {
        Some(Form::End)
    } else if name == b"IOWD".as_slice() {
        Some(Form::Iowd)
    } else if name == b"POINT".as_slice() {
        Some(Form::Point)
    } else if name == b"ASCII".as_slice() {
        Some(Form::Text(TextForm::Ascii))
    } else if name == b"ASCIZ".as_slice() {
        Some(Form::Text(TextForm::Asciz))
    } else if name == b"BLOCK".as_slice() {
        Some(Form::Block)
    } else if name == b"RADIX".as_slice() {
        Some(Form::Radix)
    } else if name == b"TITLE".as_slice() {
        Some(Form::Title)
    } else if name == b"SIXBIT".as_slice() {
        Some(Form::Text(TextForm::Sixbit))
    } else if name == b"SUBTTL".as_slice() || name == b"SEARCH".as_slice() {
        Some(Form::Title)
    } else {
        None
    }
}
