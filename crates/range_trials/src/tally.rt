// What was tried, counted.

#[derive(Clone, Copy, Debug, Default, PartialEq, Eq)]
pub struct Tally {
    pub lists: u64,
    pub queries: u64,
    pub discards: u64,
    pub differences: u64,
}

impl Tally {
    // A list more.
    pub(crate) fn list(&mut self) {
        self.lists = self.lists.wrapping_add(1);
    }

    // A query of a list more.
    pub(crate) fn query(&mut self) {
        self.queries = self.queries.wrapping_add(1);
    }

    // An index put back into a list more.
    pub(crate) fn discard(&mut self) {
        self.discards = self.discards.wrapping_add(1);
    }

    // A difference more, unless the two sides agree.
    pub(crate) fn agree(&mut self, same: bool) {
        self.differences = self.differences.wrapping_add(u64::from(!same));
    }
}
