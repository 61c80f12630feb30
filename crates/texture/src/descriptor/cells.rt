// Where a texture's cells lie: the sizes of mips and surfaces, and where each begins.
ghost use Rattle.std.specs.Prelude.{◌≡◌, ◌+◌, ◌*◌, ◌≤◌, IfSome};
ghost use Rattle.texture.specs.Shapes.{layers_of};
ghost use Rattle.texture.specs.Cells.{side, across, down, slices, surface_cells, mip_first, cells_of};
ghost use Rattle.texture.specs.Tiles.{first_in, is_surface};
ghost use Rattle.texture.specs.Described.{shape_of};

use crate::descriptor::TextureDescriptor;
use crate::shape::halved;

impl TextureDescriptor {
    // The blocks across a mip.
    pub fn across(self, mip: u32) -> u32
        ensures answer { result ≡ across (shape_of self) mip }
        ensures few { result ≤ 16384 }
    {
        mip_side(self.shape.width, mip).div_ceil(self.shape.format.block_width())
    }

    // The blocks down a mip.
    pub fn down(self, mip: u32) -> u32
        ensures answer { result ≡ down (shape_of self) mip }
        ensures few { result ≤ 16384 }
    {
        mip_side(self.shape.height, mip).div_ceil(self.shape.format.block_height())
    }

    // The slices of a mip: a flat texture has one.
    pub fn slices(self, mip: u32) -> u32
        ensures answer { result ≡ slices (shape_of self) mip }
        ensures few { result ≤ 64 }
    {
        mip_side(self.depth(), mip)
    }

    // The cells of one surface of a mip.
    pub fn surface_cells(self, mip: u32) -> u64
        ensures answer { result ≡ surface_cells (shape_of self) mip }
        ensures few { result ≤ 17179869184 }
    {
        u64::from(self.slices(mip)) * (u64::from(self.down(mip)) * u64::from(self.across(mip)))
    }

    // All cells of the texture, at most 2 to the 40.
    #[tactic(auto, using(crate::proofs::Sides::cells_few))]
    pub fn cells(self) -> u64
        ensures answer { result ≡ cells_of (shape_of self) }
        ensures few { result ≤ 1099511627776 }
    {
        self.mip_first(self.shape.mips)
    }

    // Whether the texture has a surface of that mip and layer, two numbers here and below: a caller has them apart.
    pub fn has_surface(self, mip: u32, layer: u32) -> bool
        ensures { result ≡ is_surface (shape_of self) mip layer }
    {
        mip < self.shape.mips && layer < self.layers()
    }

    // The first cell of a surface, if the texture has it.
    #[tactic(auto, using(crate::proofs::Found::surface_within))]
    pub fn surface_first(self, mip: u32, layer: u32) -> Option<u64>
        ensures answer { result ≡ first_in (shape_of self) mip layer }
        ensures within { IfSome result (λ first. first + surface_cells (shape_of self) mip ≤ 1099511627776) }
    {
        self.has_surface(mip, layer).then(|| self.mip_first(mip)
            + u64::from(layer) * self.surface_cells(mip))
    }

    // The first cell of a mip, or the end of the last.
    fn mip_first(self, mip: u32) -> u64
        requires { mip ≤ (shape_of self).mips }
        ensures { result ≡ mip_first (shape_of self) mip }
    {
        (0..mip).map(|m| self.mip_cells(m)).sum()
    }

    // The cells of all surfaces of a mip.
    #[tactic(auto, using(crate::proofs::Sides::mip_few))]
    fn mip_cells(self, mip: u32) -> u64
        ensures answer { result ≡ layers_of (shape_of self) * surface_cells (shape_of self) mip }
        ensures few { result ≤ 17179869184 }
    {
        u64::from(self.layers()) * self.surface_cells(mip)
    }
}

// A side of a mip, at least 1.
fn mip_side(texels: u32, mip: u32) -> u32
    ensures { result ≡ side texels mip }
{
    halved(texels, mip).max(1)
}
