// What a list records: uses of buffers, each kept whole.
ghost use Rattle.std.specs.Prelude.{◌≡◌, ◌-◌, ◌≤◌};
ghost use Rattle.std.specs.Option.{option_to_list};
ghost use Rattle.rules.specs.Uses.{buffer_of, start_of, end_of, cover_end, looks, commands_of};
ghost use Rattle.rules.specs.declared.step.Step.TheVariants.{BufferRead};

use device::{Command, CommandKind};

// Three fields recur, but for its kind they are the whole of a step: a struct of them would stand in each case.
#[derive(Clone, Copy, Debug, PartialEq, Eq)]
pub enum Step {
    BufferRead {
        buffer: u8,
        start: u64,
        end: u64,
    },
    BufferWrite {
        buffer: u8,
        byte: u8,
        start: u64,
        end: u64,
    },
    ClearBuffer {
        buffer: u8,
        start: u64,
        end: u64,
    },
}

impl Step {
    // The buffer that the step names.
    pub fn buffer(self) -> u8
        ensures { result ≡ buffer_of self }
    {
        match self {
            Step::BufferRead { buffer, .. }
            | Step::BufferWrite { buffer, .. }
            | Step::ClearBuffer { buffer, .. } => buffer,
        }
    }

    // Where its own range starts.
    pub fn start(self) -> u64
        ensures { result ≡ start_of self }
    {
        match self {
            Step::BufferRead { start, .. }
            | Step::ClearBuffer { start, .. }
            | Step::BufferWrite { start, .. } => start,
        }
    }

    // Where its own range ends.
    pub fn end(self) -> u64
        ensures { result ≡ end_of self }
    {
        match self {
            Step::BufferWrite { end, .. }
            | Step::ClearBuffer { end, .. }
            | Step::BufferRead { end, .. } => end,
        }
    }

    // How many bytes its own range holds.
    pub fn count(self) -> u64
        ensures { result ≡ end_of self - start_of self }
    {
        self.end().saturating_sub(self.start())
    }

    // Where what it covers ends: a read covers up to the next multiple of 4.
    pub fn cover_end(self) -> u64
        requires { end_of self ≤ 268435456 }
        ensures { result ≡ cover_end self }
    {
        match self {
            Step::BufferRead { end, .. } => end.next_multiple_of(4),
            Step::BufferWrite { end, .. } | Step::ClearBuffer { end, .. } => end,
        }
    }

    // Whether what it covers has to be cleared first.
    pub fn looks(self) -> bool
        ensures { result ≡ looks self }
    {
        matches!(self, Step::BufferRead { .. })
    }

    // What the device is asked to do for it, if anything.
    pub fn command(self) -> Option<Command>
        ensures { option_to_list result ≡ commands_of self }
    {
        let kind = match self {
            Step::BufferRead { .. } => return None,
            Step::BufferWrite { byte, .. } => CommandKind::Fill(byte),
            Step::ClearBuffer { .. } => CommandKind::Clear,
        };
        Some(Command {
            kind,
            slot: self.buffer(),
            first: self.start(),
            count: self.count(),
        })
    }
}

// What a place holds that holds no step. By hand: a derive needs a case without fields.
impl Default for Step {
    ghost is_default = { λ step. step ≡ BufferRead 0 0 0 };

    fn default() -> Step {
        Step::BufferRead {
            buffer: 0,
            start: 0,
            end: 0,
        }
    }
}
