// Rows of bytes: how long they are, what a command writes into them, and their sums.
ghost use Rattle.std.specs.Prelude.{◌≡◌, ℕ, sum, length, ◌+◌, ◌≤◌, true, ◌&&◌, if◌then◌else◌, vec_len, nat_le, nat_lt, slice_index};
ghost use Rattle.std.specs.List.{list_all};
ghost use Rattle.device.specs.Commands.{fits_in, painted};
ghost use Rattle.device.specs.Meaning.{all_within, most_cells, summed};
ghost use Rattle.device.specs.Rows.{byte_at, laid_out, length_at, lengths};

use crate::{Command, MOST_CELLS, SLOTS};

// Whether no row is longer than a slot may be.
fn all_short(rows: &[Vec<u8>]) -> bool
    ensures { result ≡ list_all (λ row. nat_le (vec_len row) most_cells) rows.now }
{
    rows.iter().all(|row| row.len() as u64 <= MOST_CELLS)
}

// Whether the rows can be a memory.
pub(crate) fn laid_out(rows: &[Vec<u8>]) -> bool
    ensures { result ≡ laid_out rows.now }
{
    rows.len() <= SLOTS && all_short(rows)
}

// The length of a slot's row, and 0 of a slot that there is not.
pub(crate) fn length_at(rows: &[Vec<u8>], slot: u8) -> u64
    ensures { result ≡ length_at rows.now slot }
{
    rows.get(usize::from(slot))
        .map_or(0, |row| row.len() as u64)
}

// Writes one byte into a part of a row.
fn fill(row: &mut [u8], first: usize, count: usize, byte: u8)
    requires { first + count ≤ length row.old }
    ensures long { length row.new ≡ length row.old }
    ensures cells { (i : ℕ) → slice_index row.new i ≡ (if nat_le first i && nat_lt i (first + count) then byte else slice_index row.old i) }
{
    row[first..first + count].fill(byte);
}

// Writes a command that fits into its slot's row.
pub(crate) fn paint(rows: &mut [Vec<u8>], c: Command)
    requires { fits_in (length_at rows.old) c ≡ true }
    ensures long { lengths rows.new ≡ lengths rows.old }
    ensures cells { (s i : ℕ) → byte_at rows.new s i ≡ painted (byte_at rows.old) c s i }
{
    let place = usize::from(c.slot);
    if c.count == 0 || place >= rows.len() {
        return;
    }
    fill(
        &mut rows[place],
        c.first as usize,
        c.count as usize,
        c.kind.byte(),
    );
}

// The sum of these bytes.
fn sum_of(bytes: &[u8]) -> u64
    requires { length bytes.now ≤ most_cells }
    ensures { result ≡ sum bytes.now }
{
    bytes.iter().map(|&byte| u64::from(byte)).sum()
}

// The sum of a range of a slot's row, which holds it.
pub(crate) fn sum_at(rows: &[Vec<u8>], slot: u8, first: u64, count: u64) -> u64
    requires { (first + count ≤ length_at rows.now slot) × (count ≤ most_cells) }
    ensures { result ≡ summed (byte_at rows.now slot) first count }
{
    match rows.get(usize::from(slot)) {
        Some(row) => sum_of(&row[first as usize..(first + count) as usize]),
        None => 0,
    }
}
