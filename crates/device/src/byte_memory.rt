// Bytes in memory as a device: a row of bytes for each slot, in memory given at making.
ghost use Rattle.std.specs.Prelude.{◌≡◌, true};
ghost use Rattle.device.specs.Meaning.{all_within};
ghost use Rattle.device.specs.Rows.{lengths};

mod holding;
mod rows;

// The rows, by slot, and how many commands are still taken.
#[derive(Drop)]
pub struct ByteMemory {
    rows: Vec<Vec<u8>>,
    left: u64,
    ghost bounded: { all_within (lengths rows.items) ≡ true },
}
