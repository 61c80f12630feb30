// The runs that clear a surface, walked one by one, so that no memory has to hold them.
ghost use Rattle.std.specs.Prelude.{◌≡◌, ℕ, ◌+◌, ◌*◌, ◌≤◌, [], length};
ghost use Rattle.std.specs.Iterator.{YieldsFirstBy, item_count};
ghost use Rattle.texture.specs.Copies.{slice_runs};

use std::iter::FusedIterator;

// Cells that one command clears.
#[derive(Clone, Copy, Debug, PartialEq, Eq)]
pub struct Run {
    pub first: u64,
    pub count: u64,
}

// What is left of a surface's runs: `left` rows of this slice from the cell `first` on, `each` rows a run, and then
// `slices` whole slices of `rows` rows; a row has `wide` cells.
#[derive(Clone, Copy, Debug, PartialEq, Eq)]
pub struct SurfaceRuns {
    first: u64,
    wide: u64,
    each: u64,
    left: u64,
    rows: u64,
    slices: u64,
    ghost whole: { 1 ≤ each },
    ghost many: { each ≤ 524288 },
    ghost tall: { 1 ≤ rows },
    ghost low: { rows ≤ 16384 },
    ghost short: { left ≤ 16384 },
    ghost thin: { slices ≤ 64 },
    ghost within: { first + left * wide + slices * (rows * wide) ≤ 1099511627776 },
}

impl SurfaceRuns {
    ghost use Rattle.texture.specs.Walked.{runs_left};

    // The runs of so many slices, each from the top.
    pub(crate) fn over(first: u64, wide: u64, each: u64, rows: u64, slices: u64) -> SurfaceRuns
        requires runs { (1 ≤ each) × (each ≤ 524288) }
        requires rows { (1 ≤ rows) × (rows ≤ 16384) }
        requires slices { slices ≤ 64 }
        requires within { first + slices * (rows * wide) ≤ 1099511627776 }
        ensures { runs_left result ≡ slice_runs slices each wide first rows }
    {
        SurfaceRuns {
            first,
            wide,
            each,
            left: 0,
            rows,
            slices,
        }
    }

    // How many runs are left, from the numbers alone: the count that every iterator has would take them one by one.
    pub fn count(self) -> u64
        ensures { result ≡ length (runs_left self) }
    {
        self.len() as u64
    }

    // The same runs, with a row left in this slice if any run is left.
    fn in_slice(mut self) -> SurfaceRuns
        ensures same { runs_left result ≡ runs_left self }
        ensures ended { result.left ≡ 0 → runs_left result ≡ [] }
    {
        if self.left == 0 && self.slices > 0 {
            self.left = self.rows;
            self.slices -= 1;
        }
        self
    }
}

impl Iterator for SurfaceRuns {
    ghost use Rattle.texture.specs.Walked.{cells_of_run, runs_left};

    type Item = Run;

    ghost next_gives = { YieldsFirstBy cells_of_run runs_left };

    ghost remaining = { item_count runs_left };

    // Takes the next run, if one is left.
    #[tactic(auto, using(crate::proofs::Steps::walked_next, crate::proofs::Follow::rows_split))]
    fn next(&mut self) -> Option<Run> {
        let mut walk = self.in_slice();
        if walk.left == 0 {
            return None;
        }
        let rows = walk.each.min(walk.left);
        let run = Run {
            first: walk.first,
            count: rows * walk.wide,
        };
        walk.first += run.count;
        walk.left -= rows;
        *self = walk;
        Some(run)
    }

    fn size_hint(&self) -> (usize, Option<usize>) {
        let left = self.len();
        (left, Some(left))
    }
}

impl ExactSizeIterator for SurfaceRuns {
    // How many runs are left.
    #[tactic(auto, using(crate::proofs::Steps::count_left))]
    fn len(&self) -> usize {
        (self.left.div_ceil(self.each) + self.slices * self.rows.div_ceil(self.each)) as usize
    }
}

impl FusedIterator for SurfaceRuns {}
