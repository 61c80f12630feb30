// The five states of a list, and the calls that they decide on.

#[derive(Clone, Copy, Debug, PartialEq, Eq)]
pub enum ListState {
    Idle,
    Recording,
    InDebt,
    Closed,
    Broken,
}

#[derive(Clone, Copy, Debug, PartialEq, Eq)]
pub enum ListCall {
    Open,
    Close,
    Abandon,
    Step,
    Submit,
}
