//! The names of packings, as `--from` and `--to` have them.
ghost use Rattle.std.specs.Prelude.{◌≡◌, Some};
ghost use Rattle.image_files.specs.Names.{packing_name, packing_named};

use crate::packings::Packing;

/// The name of a packing.
pub fn packing_name(packing: Packing) -> &'static str
    ensures name { result.now ≡ packing_name packing }
    ensures read_back { packing_named result.now ≡ Some packing }
{
    match packing {
        Packing::CoreDump => "core",
        Packing::HighDensity => "dense",
        Packing::AnsiAscii => "ascii",
        Packing::Simh => "simh",
        Packing::Octal => "octal",
    }
}

/// The packing of a name.
pub fn packing_named(name: &str) -> Option<Packing>
    ensures { result ≡ packing_named name.now }
{
    match name {
        "core" => Some(Packing::CoreDump),
        "dense" => Some(Packing::HighDensity),
        "ascii" => Some(Packing::AnsiAscii),
        "simh" => Some(Packing::Simh),
        "octal" => Some(Packing::Octal),
        _ => None,
    }
}
