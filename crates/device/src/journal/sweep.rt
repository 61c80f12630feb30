// The sum of a range from the records alone: cells between two boundaries of records are alike,
// so they are counted at once.
ghost use Rattle.std.specs.Prelude.{◌≡◌, ℕ, ◌-◌, ◌<◌, ◌≤◌};
ghost use Rattle.device.specs.Commands.{covers};
ghost use Rattle.device.specs.Meaning.{most_cells, ran, summed};

use crate::Command;

// One slot's cells: all begin at one byte, and the records are written over them in turn.
#[derive(Clone, Copy)]
pub(crate) struct SlotCells<'a> {
    pub(crate) records: &'a [Command],
    pub(crate) start: u8,
    pub(crate) slot: u8,
}

impl SlotCells<'_> {
    // The byte of a cell: that of the last record that covers it, or else the start byte.
    fn value_at(&self, at: u64) -> u8
        ensures { result ≡ ran (λ _ _. self.now.start) self.now.records.now self.now.slot at }
    {
        let mut byte = self.start;
        for record in self.records {
            if record.covers(self.slot, at) {
                byte = record.kind.byte();
            }
        }
        byte
    }

    // The least boundary of a record past this cell, at most the end: every cell up to there holds what this one does.
    fn next_change(&self, at: u64, end: u64) -> u64
        requires { at < end }
        ensures above { at < result }
        ensures within { result ≤ end }
        ensures alike { (b i : ℕ) → at ≤ i → i < result → ran (λ _ _. b) self.now.records.now self.now.slot i ≡ ran (λ _ _. b) self.now.records.now self.now.slot at }
    {
        let mut next = end;
        for record in self.records {
            next = boundary(*record, self.slot, at, next);
        }
        next
    }

    // The sum of the cells from first up to the end, in time by the number of records.
    pub(crate) fn sum(&self, first: u64, end: u64) -> u64
        requires { (first ≤ end) × (end ≤ most_cells) }
        ensures { result ≡ summed (λ i. ran (λ _ _. self.now.start) self.now.records.now self.now.slot i) first (end - first) }
    {
        let mut sum = 0;
        let mut at = first;
        // No index is counted here: a turn goes on to the next boundary.
        while at < end {
            let value = self.value_at(at);
            let next = self.next_change(at, end);
            sum += u64::from(value) * (next - at);
            at = next;
        }
        sum
    }
}

// Where the command next begins or ends to cover cells, at most the end: up to there it covers as it does here.
fn boundary(command: Command, slot: u8, at: u64, end: u64) -> u64
    requires { at < end }
    ensures above { at < result }
    ensures within { result ≤ end }
    ensures alike { (i : ℕ) → at ≤ i → i < result → covers command slot i ≡ covers command slot at }
{
    if command.slot != slot {
        return end;
    }
    if at < command.first {
        return command.first.min(end);
    }
    let passed = at - command.first;
    if passed < command.count && command.count - passed < end - at {
        return at + (command.count - passed);
    }
    end
}
