// Draining copies of the books in step order, and keeping what the reads take.
ghost use Rattle.std.specs.Prelude.{◌≡◌, ◌+◌, ◌≤◌, true, [], map, length, is_ok, if◌then◌else◌, Ok, Err};
ghost use Rattle.fault.specs.Parts.{fault_of};
ghost use Rattle.fault.specs.declared.call_kind.CallKind.TheVariants.{Submit};
ghost use Rattle.fault.specs.declared.refusal.Refusal.TheVariants.{PlacesFull};
ghost use Rattle.init_tracker.specs.Books.{owing};
ghost use Rattle.range_list.specs.Ranges.{pieces as pieces_of};
ghost use Rattle.range_list.specs.View.{all_ends};
ghost use Rattle.rules.specs.Planning.{piece_of, all_placed, taken, all_taken, holds, drain_step, drain_steps};
ghost use Rattle.rules.specs.Submission.{all_hold};
ghost use Rattle.rules.specs.Uses.{buffer_of, end_of};
ghost use Rattle.plan.specs.Kept.{kept};
ghost use Rattle.plan.specs.Views.{view_buffers};

use crate::{Buffer, Pieces, Steps};
use fault::{CallKind, Fault};
use init_tracker::BufferInitTracker;
use range_list::Span;
use rules::{Piece, Step};

// Keeps each of these ranges of one buffer.
fn keep_spans(spans: &[Span<u64>], buffer: u8, pieces: &mut Pieces)
    requires { length (kept pieces.old) + length spans.now ≤ 4096 }
    ensures held { kept pieces.new ≡ all_placed (kept pieces.old) (map (piece_of buffer) (all_ends (λ x. x) spans.now)) }
    ensures count { length (kept pieces.new) ≡ length (kept pieces.old) + length spans.now }
{
    for span in spans {
        pieces.insert(Piece {
            buffer,
            start: span.start,
            end: span.end,
        });
    }
}

// Keeps what a read takes from a book, which is at most the book's 64 ranges. An array and a count: the pieces are
// written to memory of the caller, which is this function.
fn keep_pieces(book: &BufferInitTracker, buffer: u8, query: Span<u64>, pieces: &mut Pieces)
    requires { length (kept pieces.old) + 64 ≤ 4096 }
    ensures held { kept pieces.new ≡ all_placed (kept pieces.old) (map (piece_of buffer) (pieces_of query.start query.end (owing book.now))) }
    ensures few { length (kept pieces.new) ≤ length (kept pieces.old) + 64 }
{
    let mut spans = [Span::default(); 64];
    let count = book.uninitialized(query, &mut spans).unwrap();
    keep_spans(&spans[..count], buffer, pieces);
}

// Drains the book of the step's buffer, and keeps what the step takes if it looks; a fault names the step by its place.
fn plan_step(
    buffers: &mut [Buffer; 16],
    step: Step,
    place: u8,
    pieces: &mut Pieces,
) -> Result<(), Fault>
    requires small { end_of step ≤ 268435456 }
    requires room { length (kept pieces.old) + 64 ≤ 4096 }
    ensures answer { result ≡ (if holds (view_buffers buffers.old) step then Ok tt else Err (fault_of Submit PlacesFull (buffer_of step) place)) }
    ensures after { is_ok result ≡ true → view_buffers buffers.new ≡ drain_step (view_buffers buffers.old) step }
    ensures held { kept pieces.new ≡ all_placed (kept pieces.old) (taken (view_buffers buffers.old) step) }
    ensures few { length (kept pieces.new) ≤ length (kept pieces.old) + 64 }
{
    let number = step.buffer();
    let n = usize::from(number);
    if n >= buffers.len() {
        return Ok(());
    }
    let cover = Span {
        start: step.start(),
        end: step.cover_end(),
    };
    // By index: of what is written through get_mut no proof learns.
    let buffer = &mut buffers[n];
    if step.looks() {
        keep_pieces(&buffer.book, number, cover, pieces);
    }
    buffer.book.drain(cover).map_err(|refusal| Fault::new(CallKind::Submit, refusal, number, place))
}

// Plans the steps in order; a fault names the first after which a book is past its places.
pub(crate) fn plan_steps(
    buffers: &mut [Buffer; 16],
    steps: &Steps,
    pieces: &mut Pieces,
) -> Result<(), Fault>
    requires none { kept pieces.old ≡ [] }
    ensures answer { result ≡ all_hold (view_buffers buffers.old) 0 steps.now }
    ensures after { is_ok result ≡ true → view_buffers buffers.new ≡ drain_steps (view_buffers buffers.old) steps.now }
    ensures held { is_ok result ≡ true → kept pieces.new ≡ all_placed [] (all_taken (view_buffers buffers.old) steps.now) }
{
    for (place, step) in steps.as_slice().iter().enumerate() {
        plan_step(buffers, *step, place as u8, pieces)?;
    }
    Ok(())
}
