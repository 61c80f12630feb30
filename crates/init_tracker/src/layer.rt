// The list of the layers of one mip that are still uninitialized: a book of 32 places, which at most 64 layers never run past.
ghost use Rattle.std.specs.Prelude.{◌≡◌, ◌≤◌, length};
ghost use Rattle.range_list.specs.Ranges.{Sound, added, checked, drained};
ghost use Rattle.range_list.specs.View.{positions};

use crate::book::Book;
use range_list::Span;

#[derive(Clone, Copy)]
pub struct LayerInitTracker {
    book: Book<u32, 32>,
    ghost few: { book.size ≤ 64 },
}

impl LayerInitTracker {
    ghost use Rattle.init_tracker.specs.Layers.{owing_layers, NewLayers};

    // The list of a new mip, of which no layer is initialized; there is none of more than 64 layers.
    pub fn new(layers: u32) -> Option<LayerInitTracker>
        ensures { NewLayers layers result }
    {
        if layers > 64 {
            return None;
        }
        let book = Book::owing(Span {
            start: 0,
            end: layers,
        });
        Some(LayerInitTracker { book })
    }

    // How many layers there are, at most 64.
    pub fn layers(&self) -> u32
        ensures answer { result ≡ self.now.book.size }
        ensures few { result ≤ 64 }
    {
        self.book.size()
    }

    // How many ranges are uninitialized, at most 32, and that they keep within the layers.
    pub fn count(&self) -> usize
        ensures answer { result ≡ length (owing_layers self.now) }
        ensures few { length (owing_layers self.now) ≤ 32 }
        ensures sound { Sound self.now.book.size (owing_layers self.now) }
    {
        self.book.count()
    }

    // The part of the query that has to be filled before it is read, if any of it is uninitialized.
    pub fn check(&self, query: Span<u32>) -> Option<Span<u32>>
        ensures { positions (λ x. x) result ≡ checked query.start query.end (owing_layers self.now) }
    {
        self.book.check(query)
    }

    // Takes the layers of the query out of the list.
    pub fn drain(&mut self, query: Span<u32>)
        ensures after { owing_layers self.new ≡ drained query.start query.end (owing_layers self.old) }
        ensures layers { self.new.book.size ≡ self.old.book.size }
    {
        self.book.drain(query).unwrap();
    }

    // Puts a layer back into the list; one that there is not changes nothing.
    pub fn discard(&mut self, layer: u32)
        ensures after { owing_layers self.new ≡ added layer self.old.book.size (owing_layers self.old) }
        ensures layers { self.new.book.size ≡ self.old.book.size }
    {
        self.book.discard(layer).unwrap();
    }
}
