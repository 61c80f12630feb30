// The calls of a planner, with their arguments as they come.

#[derive(Clone, Copy, Debug, PartialEq, Eq)]
pub enum Call {
    MakeBuffer {
        size: u64,
        // A number, not a flag: the rules decline one that is neither 0 nor 1.
        copy: u8,
    },
    Destroy {
        resource: u8,
    },
    Open {
        list: u8,
    },
    Close {
        list: u8,
    },
    Abandon {
        list: u8,
    },
    BufferRead {
        list: u8,
        resource: u8,
        start: u64,
        end: u64,
    },
    BufferWrite {
        list: u8,
        resource: u8,
        byte: u8,
        start: u64,
        end: u64,
    },
    ClearBuffer {
        list: u8,
        resource: u8,
        offset: u64,
        size: Option<u64>,
    },
    Submit {
        list: u8,
    },
    // A call that there is not; it is one all the same, and is declined by 1.
    Unknown,
}
