// Why something was not made, and what was given for it.

use crate::Refusal;

#[derive(Debug, Drop)]
pub struct Unmade<T> {
    pub refusal: Refusal,
    pub given: T,
}
