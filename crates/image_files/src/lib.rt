//! Programs as people keep them: 36-bit words packed in bytes, and core images.
#![tactic(auto)]

mod core_images;
mod faults;
mod fits;
mod from_bytes;
mod images;
mod laws;
mod names;
mod octal_lines;
mod packings;
mod reasons;
mod save_reader;
mod save_writer;
mod saves;
mod to_bytes;
mod word_forms;

pub use core_images::{read_image, read_words};
pub use faults::{ImageError, ImageFault};
pub use fits::{Wanted, packing_that_fits};
pub use from_bytes::unpack;
pub use images::{compressed, is_image};
pub use laws::{
    packed_words_are_read, read_bytes_are_packed, read_images_fit, read_words_fit, saved_words_fit,
    saves_are_read, saves_give_images,
};
pub use names::{packing_name, packing_named};
pub use packings::{PackError, PackErrorKind, Packing};
pub use reasons::fault_text;
pub use save_reader::read_save;
pub use save_writer::write_save;
pub use saves::{SaveError, SaveErrorKind};
pub use to_bytes::pack;
