// Which numbers describe a texture: one cause covers all that do not.
ghost use Rattle.std.specs.Prelude.{◌≡◌};
ghost use Rattle.fault.specs.declared.refusal.Refusal.TheVariants.{BadDescription};
ghost use Rattle.texture.specs.Numbered.{described, if_proper};
ghost use Rattle.texture.specs.Described.{shape_made};

use crate::descriptor::TextureDescriptor;
use crate::{ClearMode, Dimension, Format, Shape, UnknownNumber};
use fault::Refusal;

// The seven numbers of a description, as they come.
#[derive(Clone, Copy, Debug, PartialEq, Eq)]
pub struct TextureNumbers {
    pub dimension: u8,
    pub format: u8,
    pub mode: u8,
    pub width: u32,
    pub height: u32,
    pub count: u32,
    pub mips: u32,
}

impl From<UnknownNumber> for Refusal {
    ghost from_gives = { λ _ refusal. refusal ≡ BadDescription };

    fn from(_: UnknownNumber) -> Refusal {
        Refusal::BadDescription
    }
}

impl TryFrom<Shape> for TextureDescriptor {
    type Error = Refusal;

    ghost try_from_gives = { λ shape made. shape_made made ≡ if_proper shape };

    fn try_from(shape: Shape) -> Result<TextureDescriptor, Refusal> {
        if shape.is_proper() {
            Ok(TextureDescriptor { shape })
        } else {
            Err(Refusal::BadDescription)
        }
    }
}

impl TextureDescriptor {
    // The descriptor of seven numbers, where they name cases and keep the limits.
    pub fn new(numbers: TextureNumbers) -> Result<TextureDescriptor, Refusal>
        ensures { shape_made result ≡ described numbers.dimension numbers.format numbers.mode numbers.width numbers.height numbers.count numbers.mips }
    {
        TextureDescriptor::try_from(Shape {
            dimension: Dimension::try_from(numbers.dimension)?,
            format: Format::try_from(numbers.format)?,
            mode: ClearMode::try_from(numbers.mode)?,
            width: numbers.width,
            height: numbers.height,
            count: numbers.count,
            mips: numbers.mips,
        })
    }
}
