//! How many words a text takes.

ghost use Rattle.std.specs.Prelude.{◌≡◌, ◌<◌, ◌^◌};
ghost use Rattle.mac_layout.specs.TextSizes.{words_in};

use mac_text::TextForm;

/// How many words a text of so many characters takes.
pub fn text_words(form: TextForm, len: usize) -> usize
    requires { len < 2 ^ 63 }
    ensures { result ≡ words_in form len }
{
    match form {
        TextForm::Ascii => len / 5 + usize::from(len % 5 != 0),
        TextForm::Asciz => len / 5 + 1,
        TextForm::Sixbit => len / 6 + usize::from(len % 6 != 0),
    }
}
