// A buffer of the planner: what is known of it, and its book.
ghost use Rattle.std.specs.Prelude.{◌≤◌};

use init_tracker::BufferInitTracker;

// The most bytes of a buffer.
pub const MOST_BYTES: u64 = 268_435_456;

#[derive(Clone, Copy)]
pub struct Buffer {
    pub book: BufferInitTracker,
    pub size: u64,
    // Whether a command may clear it.
    pub copy: bool,
    // False before it is made and after it is destroyed.
    // A flag, and no Option of the rest: the rules keep the size and the book of a destroyed buffer.
    pub standing: bool,
    ghost small: { size ≤ 268435456 },
}
