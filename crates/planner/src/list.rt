// A list of steps: recorded, closed and submitted, or broken.
use plan::Steps;
use rules::ListState;

mod recording;

#[derive(Drop)]
pub(crate) struct CommandList {
    state: ListState,
    steps: Steps,
}
