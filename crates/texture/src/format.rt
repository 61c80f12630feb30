// What a texture is made of: the formats, dimensions and ways of clearing that there are, and what each asks.
ghost use Rattle.std.specs.Prelude.{◌≡◌};
ghost use Rattle.texture.specs.Shapes.{block_bytes, block_width, block_height, suits, flat, flat_mode, flat_format};
ghost use Rattle.texture.specs.Numbered.{known, dimension_of, format_of, mode_of};

#[derive(Clone, Copy, Debug, PartialEq, Eq)]
pub enum Format {
    R8Unorm,
    Rgba8Unorm,
    Rgba32Float,
    Bc1RgbaUnorm,
    Astc6x5Unorm,
    Depth32Float,
}

#[derive(Clone, Copy, Debug, PartialEq, Eq)]
pub enum Dimension {
    D2,
    D3,
}

// How surfaces are cleared: not at all, by copies of zeros, or by a pass that draws to them.
#[derive(Clone, Copy, Debug, PartialEq, Eq)]
pub enum ClearMode {
    None,
    Copies,
    ColourPass,
    DepthPass,
}

// A number that names no format, no dimension or no way of clearing.
#[derive(Clone, Copy, Debug, PartialEq, Eq)]
pub struct UnknownNumber(pub u8);

impl TryFrom<u8> for Format {
    type Error = UnknownNumber;

    ghost try_from_gives = { λ number named. named ≡ known number (format_of number) };

    fn try_from(number: u8) -> Result<Format, UnknownNumber> {
        match number {
            0 => Ok(Format::R8Unorm),
            1 => Ok(Format::Rgba8Unorm),
            2 => Ok(Format::Rgba32Float),
            3 => Ok(Format::Bc1RgbaUnorm),
            4 => Ok(Format::Astc6x5Unorm),
            5 => Ok(Format::Depth32Float),
            _ => Err(UnknownNumber(number)),
        }
    }
}

impl TryFrom<u8> for Dimension {
    type Error = UnknownNumber;

    ghost try_from_gives = { λ number named. named ≡ known number (dimension_of number) };

    fn try_from(number: u8) -> Result<Dimension, UnknownNumber> {
        match number {
            2 => Ok(Dimension::D2),
            3 => Ok(Dimension::D3),
            _ => Err(UnknownNumber(number)),
        }
    }
}

impl TryFrom<u8> for ClearMode {
    type Error = UnknownNumber;

    ghost try_from_gives = { λ number named. named ≡ known number (mode_of number) };

    fn try_from(number: u8) -> Result<ClearMode, UnknownNumber> {
        match number {
            0 => Ok(ClearMode::None),
            1 => Ok(ClearMode::Copies),
            2 => Ok(ClearMode::ColourPass),
            3 => Ok(ClearMode::DepthPass),
            _ => Err(UnknownNumber(number)),
        }
    }
}

impl Format {
    // The bytes of one block.
    pub fn block_bytes(self) -> u32
        ensures { result ≡ block_bytes self }
    {
        match self {
            Format::R8Unorm => 1,
            Format::Rgba8Unorm | Format::Depth32Float => 4,
            Format::Bc1RgbaUnorm => 8,
            Format::Rgba32Float | Format::Astc6x5Unorm => 16,
        }
    }

    // The texels across a block.
    pub fn block_width(self) -> u32
        ensures { result ≡ block_width self }
    {
        match self {
            Format::Bc1RgbaUnorm => 4,
            Format::Astc6x5Unorm => 6,
            _ => 1,
        }
    }

    // The texels down a block.
    pub fn block_height(self) -> u32
        ensures { result ≡ block_height self }
    {
        match self {
            Format::Bc1RgbaUnorm => 4,
            Format::Astc6x5Unorm => 5,
            _ => 1,
        }
    }

    // Whether only dimension 2 has the format: one of blocks or of depth.
    pub fn is_flat(self) -> bool
        ensures { result ≡ flat_format self }
    {
        matches!(
            self,
            Format::Bc1RgbaUnorm | Format::Astc6x5Unorm | Format::Depth32Float
        )
    }
}

impl Dimension {
    // Whether textures are flat, with layers and no depth.
    pub fn is_flat(self) -> bool
        ensures { result ≡ flat self }
    {
        self == Dimension::D2
    }
}

impl ClearMode {
    // Whether textures of a format can be cleared so.
    pub fn suits(self, format: Format) -> bool
        ensures { result ≡ suits self format }
    {
        match self {
            ClearMode::None => true,
            ClearMode::Copies => format != Format::Depth32Float,
            ClearMode::ColourPass => matches!(
                format,
                Format::R8Unorm | Format::Rgba8Unorm | Format::Rgba32Float
            ),
            ClearMode::DepthPass => format == Format::Depth32Float,
        }
    }

    // Whether it is a pass, which only flat textures have.
    pub fn is_pass(self) -> bool
        ensures { result ≡ flat_mode self }
    {
        matches!(self, ClearMode::ColourPass | ClearMode::DepthPass)
    }
}
