// A texture's shape, and which shapes textures may have: all limits are tried here.
ghost use Rattle.std.specs.Prelude.{◌≡◌, ◌-◌, ◌/◌, ◌%◌, ◌^◌, true, false, ◌&&◌, ◌||◌, if◌then◌else◌, ◌==◌, nat_le};
ghost use Rattle.texture.specs.Shapes.{block_width, block_height, suits, flat_mode, flat_format, flat, between, proper, layers_of, depth_of, largest};

use crate::{ClearMode, Dimension, Format};

const MAX_SIDE: u32 = 16384;

const MAX_COUNT: u32 = 64;

// `count` is the layers of a flat texture, and the depth of a volume.
#[derive(Clone, Copy, Debug, PartialEq, Eq)]
pub struct Shape {
    pub dimension: Dimension,
    pub format: Format,
    pub mode: ClearMode,
    pub width: u32,
    pub height: u32,
    pub count: u32,
    pub mips: u32,
}

impl Shape {
    // How many layers: a volume has one.
    pub(crate) fn layers(self) -> u32
        ensures { result ≡ layers_of self }
    {
        match self.dimension {
            Dimension::D2 => self.count,
            Dimension::D3 => 1,
        }
    }

    // How deep the first mip is: a flat texture has one slice.
    pub(crate) fn depth(self) -> u32
        ensures { result ≡ depth_of self }
    {
        match self.dimension {
            Dimension::D2 => 1,
            Dimension::D3 => self.count,
        }
    }

    // Whether a texture may have the shape.
    pub(crate) fn is_proper(self) -> bool
        ensures { result ≡ proper self }
    {
        self.is_sized()
            && self.is_suited()
            && self.is_whole()
            && halves(self.largest_side(), self.mips)
    }

    // Whether its sides and its count keep their limits.
    fn is_sized(self) -> bool
        ensures { result ≡ (between 1 16384 self.width && (between 1 16384 self.height && between 1 64 self.count)) }
    {
        (1..=MAX_SIDE).contains(&self.width)
            && (1..=MAX_SIDE).contains(&self.height)
            && (1..=MAX_COUNT).contains(&self.count)
    }

    // Whether its format and its dimension allow its way of clearing: a volume has neither blocks nor depth, and is
    // not cleared by passes.
    fn is_suited(self) -> bool
        ensures { result ≡ (suits self.mode self.format && (flat self.dimension || (if flat_mode self.mode then false else (if flat_format self.format then false else true)))) }
    {
        self.mode.suits(self.format)
            && (self.dimension.is_flat() || !self.mode.is_pass() && !self.format.is_flat())
    }

    // Whether blocks fill its sides.
    #[tactic(auto, using(std::proofs::lemmas::Bool::Decides::nat_tests))]
    fn is_whole(self) -> bool
        ensures { result ≡ (self.width % block_width self.format == 0 && self.height % block_height self.format == 0) }
    {
        self.width.is_multiple_of(self.format.block_width())
            && self.height.is_multiple_of(self.format.block_height())
    }

    // The largest side; a volume's depth is one too.
    fn largest_side(self) -> u32
        ensures { result ≡ largest self }
    {
        self.width.max(self.height).max(self.depth())
    }
}

// Whether there are so many mips: each but the first halves a side, which stays 1 or more.
fn halves(side: u32, mips: u32) -> bool
    ensures { result ≡ (nat_le 1 mips && nat_le 1 (side / 2 ^ (mips - 1))) }
{
    1 <= mips && 1 <= halved(side, mips - 1)
}

// A side halved so often, dropping fractions.
#[tactic(auto, using(crate::proofs::Halved::shift_halves))]
pub(crate) fn halved(side: u32, times: u32) -> u32
    ensures { result ≡ side / 2 ^ times }
{
    side.checked_shr(times).unwrap_or(0)
}
