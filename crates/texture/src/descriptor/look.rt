// What a descriptor says of its texture.
ghost use Rattle.std.specs.Prelude.{◌≡◌, true};
ghost use Rattle.texture.specs.Shapes.{proper, layers_of, depth_of};
ghost use Rattle.texture.specs.Described.{shape_of};

use crate::descriptor::TextureDescriptor;
use crate::{ClearMode, Dimension, Format};

impl TextureDescriptor {
    pub fn dimension(self) -> Dimension
        ensures { result ≡ (shape_of self).dimension }
    {
        self.shape.dimension
    }

    pub fn format(self) -> Format
        ensures { result ≡ (shape_of self).format }
    {
        self.shape.format
    }

    pub fn clear_mode(self) -> ClearMode
        ensures { result ≡ (shape_of self).mode }
    {
        self.shape.mode
    }

    pub fn width(self) -> u32
        ensures { result ≡ (shape_of self).width }
    {
        self.shape.width
    }

    pub fn height(self) -> u32
        ensures { result ≡ (shape_of self).height }
    {
        self.shape.height
    }

    pub fn mips(self) -> u32
        ensures answer { result ≡ (shape_of self).mips }
        ensures fit { proper (shape_of self) ≡ true }
    {
        self.shape.mips
    }

    // How many layers: a volume has one.
    pub fn layers(self) -> u32
        ensures answer { result ≡ layers_of (shape_of self) }
        ensures fit { proper (shape_of self) ≡ true }
    {
        self.shape.layers()
    }

    // How deep the first mip is: a flat texture has one slice.
    pub fn depth(self) -> u32
        ensures { result ≡ depth_of (shape_of self) }
    {
        self.shape.depth()
    }
}
