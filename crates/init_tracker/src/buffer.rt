// The book of one buffer: the byte ranges that are still uninitialized, in 64 places.
ghost use Rattle.std.specs.Prelude.{◌≡◌};
ghost use Rattle.range_list.specs.Ranges.{whole};
ghost use Rattle.init_tracker.specs.Books.{owing};

use crate::book::Book;
use range_list::Span;

pub type BufferInitTracker = Book<u64, 64>;

impl BufferInitTracker {
    // The book of a new buffer, of which no byte is initialized.
    pub fn new(size: u64) -> BufferInitTracker
        ensures owing { owing result ≡ whole size }
        ensures size { result.size ≡ size }
    {
        Book::owing(Span {
            start: 0,
            end: size,
        })
    }
}
