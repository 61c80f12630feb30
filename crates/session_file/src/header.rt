// What a session file says ahead of its calls.
ghost use Rattle.std.specs.Prelude.{◌≡◌};
ghost use Rattle.session_file.specs.Header.{header_of};

use crate::words::word_at;

// How many bytes a header has.
const BYTES: u32 = 20;

// The most commands that a session's device takes.
const MOST_ALLOWANCE: u32 = 1024;

// The largest pitch. A planner tests it again: each is judged on its own, with an answer of its own.
const MOST_PITCH: u32 = 256;

#[derive(Clone, Copy, Debug, PartialEq, Eq)]
pub struct Header {
    // How many calls there are.
    pub calls: u32,
    // Where the first one begins.
    pub offset: u32,
    // How many commands the device takes.
    pub allowance: u32,
    // What each cell holds before the first command.
    pub start: u8,
    // The planner's pitch.
    pub pitch: u32,
}

// The header of a file, or nothing where the file does not begin with one.
pub fn read_header(input: &[u8]) -> Option<Header>
    ensures { result ≡ header_of input.now }
{
    if input.len() < BYTES as usize {
        return None;
    }
    let header = Header {
        calls: word_at(input, 0),
        offset: word_at(input, 4),
        allowance: word_at(input, 8),
        start: u8::try_from(word_at(input, 12)).ok()?,
        pitch: word_at(input, 16),
    };
    if header.offset < BYTES || header.offset as usize > input.len() {
        return None;
    }
    if header.allowance > MOST_ALLOWANCE || !(1..=MOST_PITCH).contains(&header.pitch) {
        return None;
    }
    Some(header)
}
