// Which clears the steps of a list can't be spared, found before the first command, and the commands of a submission.
// A cast by `as` goes between `usize` and another number, or to fewer bits, where there is no `From`; none loses anything.
#![tactic(auto)]

mod buffer;
mod checks;
mod join;
mod pieces;
mod planning;
mod run;
mod steps;
mod submit;

pub use buffer::{Buffer, MOST_BYTES};
use checks::{all_fit, all_stand, count_commands, steps_fit, sum_cells};
use join::join_touching;
use pieces::Pieces;
use planning::plan_steps;
use run::{run_clears, run_steps};
pub use steps::{MOST_STEPS, Steps};
pub use submit::submit_steps;
