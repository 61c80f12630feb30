// The plain types of calls, steps and answers, and in specs/ the rules of every call.
#![tactic(auto)]

mod answer;
mod call;
mod laws;
mod list_state;
mod piece;
mod report;
mod step;

pub use answer::{Accepted, Answer};
pub use call::Call;
pub use laws::{clears_as_webgpu, sample_stands};
pub use list_state::{ListCall, ListState};
pub use piece::Piece;
pub use report::{ReadSum, Records, Report};
pub use step::Step;
