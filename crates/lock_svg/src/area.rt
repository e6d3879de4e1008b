//! A rectangle of a picture.
ghost use Rattle.std.specs.Prelude.{Some};
ghost use Rattle.lock_svg.specs.Shapes.{area_text};

use std::fmt;

/// A rectangle, in pixels.
#[derive(Clone, Copy)]
pub struct Area {
    /// Its left edge.
    pub x: usize,
    /// Its upper edge.
    pub y: usize,
    /// Its width.
    pub width: usize,
    /// Its height.
    pub height: usize,
}

impl fmt::Display for Area {
    ghost output = { λ a. Some (area_text a) };

    #[tactic(auto, unfolding(crate::specs::Shapes::area_text))]
    fn fmt<W: fmt::Write>(&self, f: &mut fmt::Formatter<W>) -> fmt::Result {
        let (x, y, width, height) = (self.x, self.y, self.width, self.height);
        write!(
            f,
            "x=\"{x}\" y=\"{y}\" width=\"{width}\" height=\"{height}\""
        )
    }
}
