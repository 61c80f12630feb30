// What a call answers.
use fault::Fault;

#[derive(Clone, Copy, Debug, PartialEq, Eq)]
pub enum Accepted {
    // A resource of this number was made.
    Made(u8),
    // Nothing more is to be said.
    Done,
    // A list was submitted; the report says what it took.
    Submitted,
}

// Accepted, or declined with a fault.
pub type Answer = Result<Accepted, Fault>;
