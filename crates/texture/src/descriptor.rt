// What one texture is: numbers that were checked when it was described, so that nothing below checks them again.
ghost use Rattle.std.specs.Prelude.{◌≡◌, true};
ghost use Rattle.texture.specs.Shapes.{proper};

use crate::Shape;

mod cells;
mod clearing;
mod look;
mod make;

pub use make::TextureNumbers;

#[derive(Clone, Copy, Debug, PartialEq, Eq)]
pub struct TextureDescriptor {
    shape: Shape,
    ghost fit: { proper shape ≡ true },
}
