//! The option `--from`, which says how core images are packed.

use clap::{Arg, ArgMatches};
use image_files::{Packing, packing_named};
use program_shell::Wrong;
use std::alloc::Global;

/// `--from`.
const FROM: &str =
    "how the words of a FILE.sav, a core image, are packed: core, dense, ascii, simh or octal [default: core]";

/// What is wrong with a form of another name.
const WRONG_FORM: &str =
    "invalid value for '--from <FORM>': core, dense, ascii, simh or octal is wanted";

/// The option `--from FORM`.
pub fn make_from<'a>(alloc: Global) -> Arg<'a> {
    Arg::new(alloc, "from")
        .long("from")
        .value_name("FORM")
        .help(FROM)
}

/// The packing that `--from` names: a core dump where it is not given.
pub fn packing_in<'a>(matches: &ArgMatches<'a>) -> Result<Packing, Wrong<'a>> {
    let Some(name) = matches.get_str("from") else {
        return Ok(Packing::CoreDump);
    };
    match packing_named(name) {
        Some(packing) => Ok(packing),
        None => Err(Wrong::Other(WRONG_FORM)),
    }
}
