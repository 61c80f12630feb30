// What declines a use of a buffer while it is recorded.
ghost use Rattle.std.specs.Prelude.{◌≡◌, ◌+◌, ◌<◌, not, is_ok, Ok, Err, MatchResult};
ghost use Rattle.fault.specs.Clears.{refusal_of};
ghost use Rattle.rules.specs.Clears.{webgpu_refuses};
ghost use Rattle.rules.specs.Steps.{no_place, read_causes, write_causes, clear_causes, clear_size};
ghost use Rattle.rules.specs.Verdicts.{tried};
ghost use Rattle.plan.specs.Views.{view_buffer};

use fault::{ClearError, Refusal};
use plan::{Buffer, MOST_STEPS};

// Whether a list with so many steps has no place for a use of this range; an empty one needs none. Here and below a
// start and an end come as two numbers, and not as one range: they are judged before they may be one.
fn is_full(held: usize, start: u64, end: u64) -> bool
    ensures { result ≡ no_place held start end }
{
    start < end && held >= MOST_STEPS
}

// Declines for the first of these causes that holds.
fn tried(causes: &[(bool, Refusal)]) -> Result<(), Refusal>
    ensures { result ≡ tried causes.now }
{
    for (holds, refusal) in causes {
        if *holds {
            return Err(*refusal);
        }
    }
    Ok(())
}

// The causes of a read, in their order.
pub(crate) fn check_read(buffer: &Buffer, start: u64, end: u64, held: usize) -> Result<(), Refusal>
    ensures { result ≡ tried (read_causes start end (view_buffer buffer.now) held) }
{
    tried(&[
        (!buffer.standing, Refusal::Destroyed),
        (!start.is_multiple_of(4), Refusal::UnalignedStart),
        (end > buffer.size, Refusal::PastBuffer),
        (start > end, Refusal::Backward),
        (is_full(held, start, end), Refusal::ListFull),
    ])
}

// The causes of a write, in their order.
pub(crate) fn check_write(buffer: &Buffer, start: u64, end: u64, held: usize) -> Result<(), Refusal>
    ensures { result ≡ tried (write_causes start end (view_buffer buffer.now) held) }
{
    tried(&[
        (!buffer.standing, Refusal::Destroyed),
        (!start.is_multiple_of(4), Refusal::UnalignedStart),
        (!end.is_multiple_of(4), Refusal::UnalignedEnd),
        (end > buffer.size, Refusal::PastBuffer),
        (start > end, Refusal::Backward),
        (is_full(held, start, end), Refusal::ListFull),
    ])
}

// Where a clear ends, or what it finds wrong, in the order of the causes.
fn clear_end(buffer: &Buffer, offset: u64, size: Option<u64>) -> Result<u64, ClearError>
    ensures { MatchResult result (λ end. (tried (clear_causes offset size (view_buffer buffer.now) 0) ≡ Ok tt) × (end ≡ offset + clear_size size offset buffer.now.size)) (λ e. tried (clear_causes offset size (view_buffer buffer.now) 0) ≡ Err (refusal_of e)) }
{
    if !buffer.copy {
        return Err(ClearError::MissingBufferUsage);
    }
    if !offset.is_multiple_of(4) {
        return Err(ClearError::UnalignedBufferOffset(offset));
    }
    let count = size.unwrap_or(buffer.size.saturating_sub(offset));
    if !count.is_multiple_of(4) {
        return Err(ClearError::UnalignedFillSize(count));
    }
    let Some(end) = offset.checked_add(count) else {
        return Err(ClearError::OffsetPlusSizeExceeds64BitBounds {
            start_offset: offset,
            requested_size: count,
        });
    };
    if end > buffer.size {
        return Err(ClearError::BufferOverrun {
            start_offset: offset,
            end_offset: end,
            buffer_size: buffer.size,
        });
    }
    Ok(end)
}

// The causes of a clear, in their order; where it ends, if it is accepted.
pub(crate) fn check_clear(
    buffer: &Buffer,
    offset: u64,
    size: Option<u64>,
    held: usize,
) -> Result<u64, Refusal>
    ensures cases { MatchResult result (λ end. (tried (clear_causes offset size (view_buffer buffer.now) held) ≡ Ok tt) × (end ≡ offset + clear_size size offset buffer.now.size)) (λ e. tried (clear_causes offset size (view_buffer buffer.now) held) ≡ Err e) }
    ensures webgpu { held < 64 → is_ok result ≡ not (webgpu_refuses (view_buffer buffer.now) offset size) }
{
    let end = clear_end(buffer, offset, size)?;
    if is_full(held, offset, end) {
        return Err(Refusal::ListFull);
    }
    Ok(end)
}
