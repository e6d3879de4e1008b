//! The images that a script has defined.
ghost use Rattle.std.specs.Prelude.{◌≡◌, [], OnOk, IfSome, option_map};
ghost use Rattle.op_script.specs.Images.{assembled_in, image_of, with_image};

use indexmap::IndexMap;
use run_commands::ImageName;
use std::alloc::{AllocError, Global};
use std::marker::Model;
use word36::Image;

/// Images by name: of each name the latest.
#[derive(Drop)]
pub struct Images {
    by_name: IndexMap<ImageName, Image>,
}

impl Model for Images {
    ghost use Rattle.std.specs.Prelude.{map};
    ghost use Rattle.op_script.specs.Images.{Named, assembled_in};

    ghost Value = { Named };

    ghost view = { λ s. map (λ e. (e.0, assembled_in e.1)) s.by_name.entries };
}

impl Images {
    /// No images.
    pub fn new(alloc: Global) -> Self
        ensures { result ≡ [] }
    {
        Images {
            by_name: IndexMap::new(alloc),
        }
    }

    /// Adds an image; it replaces another of its name.
    pub fn insert(&mut self, name: ImageName, image: Image) -> Result<(), AllocError>
        ensures { OnOk result (self.new ≡ with_image self.old name (assembled_in image)) }
    {
        match self.by_name.insert(name, image) {
            Ok(_) => Ok(()),
            Err(_) => Err(AllocError),
        }
    }

    /// The image of a name.
    pub fn get(&self, name: &ImageName) -> Option<&Image>
        ensures { option_map (λ image. assembled_in image.now) result ≡ image_of self.now name.now }
    {
        self.by_name.get(name)
    }
}
