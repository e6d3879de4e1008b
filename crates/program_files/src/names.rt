//! What the name of a file says: whether it is a core image.
ghost use Rattle.std.specs.Prelude.{◌↔◌, IsTrue};
ghost use Rattle.program_files.specs.Files.{IsImageName};

/// How the name of a core image ends.
const IMAGE_END: &[u8] = b".sav";

/// Whether a file of this name is a core image: the name ends in `.sav`, in upper case or lower (this project's profile).
pub fn is_image_name(name: &str) -> bool
    ensures { IsTrue result ↔ IsImageName name.now }
{
    let bytes = name.as_bytes();
    let end = bytes.len().saturating_sub(IMAGE_END.len());
    bytes[end..].eq_ignore_ascii_case(IMAGE_END)
}
