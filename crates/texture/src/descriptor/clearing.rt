// In which runs a surface is cleared: copies of whole rows from a buffer of zeros, or one pass.
ghost use Rattle.std.specs.Prelude.{◌≡◌, ◌+◌, ◌≤◌};
ghost use Rattle.texture.specs.Cells.{across, down, slices, surface_cells};
ghost use Rattle.texture.specs.Copies.{bytes_per_row, block_rows_per_copy, slice_runs};
ghost use Rattle.texture.specs.Runs.{runs_in};
ghost use Rattle.texture.specs.Described.{shape_of};
ghost use Rattle.texture.specs.Walked.{runs_left, runs_found};

use crate::alignment::common_multiple;
use crate::descriptor::TextureDescriptor;
use crate::pitch::Pitch;
use crate::{ClearMode, SurfaceRuns};

const ZERO_BYTES: u32 = 524288;

impl TextureDescriptor {
    // The runs that clear a surface, with rows aligned to a pitch of 1 to 256; none where there is no such surface or pitch.
    pub fn clear_runs(self, pitch: u32, mip: u32, layer: u32) -> Option<SurfaceRuns>
        ensures { runs_found result ≡ runs_in pitch (shape_of self) mip layer }
    {
        let pitch = Pitch::new(pitch)?;
        let first = self.surface_first(mip, layer)?;
        match self.shape.mode {
            ClearMode::None => Some(SurfaceRuns::over(first, 1, 1, 1, 0)),
            ClearMode::Copies => Some(self.copies(pitch, mip, first)),
            ClearMode::ColourPass | ClearMode::DepthPass => {
                Some(SurfaceRuns::over(first, self.surface_cells(mip), 1, 1, 1))
            }
        }
    }

    // The copies of a surface whose first cell is known.
    #[tactic(auto, using(crate::proofs::Sides::down_some))]
    fn copies(self, pitch: Pitch, mip: u32, first: u64) -> SurfaceRuns
        requires { first + surface_cells (shape_of self) mip ≤ 1099511627776 }
        ensures { runs_left result ≡ slice_runs (slices (shape_of self) mip) (block_rows_per_copy pitch.bytes (shape_of self) mip) (across (shape_of self) mip) first (down (shape_of self) mip) }
    {
        SurfaceRuns::over(
            first,
            u64::from(self.across(mip)),
            u64::from(self.block_rows(pitch, mip)),
            u64::from(self.down(mip)),
            u64::from(self.slices(mip)),
        )
    }

    // The rows of blocks that one copy has.
    #[tactic(auto, using(crate::proofs::Rows::row_some, crate::proofs::Rows::copy_some, crate::proofs::Rows::rows_few))]
    fn block_rows(self, pitch: Pitch, mip: u32) -> u32
        ensures answer { result ≡ block_rows_per_copy pitch.bytes (shape_of self) mip }
        ensures some { 1 ≤ result }
        ensures few { result ≤ 524288 }
    {
        ZERO_BYTES / self.row_bytes(pitch, mip) / self.shape.format.block_height()
    }

    // The bytes of a row in the buffer of zeros.
    #[tactic(auto, using(crate::proofs::Rows::bytes_some))]
    fn row_bytes(self, pitch: Pitch, mip: u32) -> u32
        ensures { result ≡ bytes_per_row pitch.bytes (shape_of self) mip }
    {
        let block = self.shape.format.block_bytes();
        let row = self.across(mip) * block;
        row.next_multiple_of(common_multiple(pitch.bytes(), block))
    }
}
