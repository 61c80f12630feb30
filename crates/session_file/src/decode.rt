// From the bytes of a call to the call.
ghost use Rattle.std.specs.Prelude.{◌≡◌};
ghost use Rattle.session_file.specs.Decode.{call_of, clear_call, fields_call};

use crate::words::long_at;
use rules::Call;

// How many bytes a call has.
pub const CALL_BYTES: usize = 32;

// What the bytes of a call hold: an operation's number, a list, a resource, a small number and two long ones.
#[derive(Clone, Copy, Debug, PartialEq, Eq)]
struct Fields {
    operation: u8,
    list: u8,
    resource: u8,
    // As the file has it: each operation reads it in its own way.
    small: u8,
    x: u64,
    y: u64,
}

impl Fields {
    // A clear, whose size is missing or given.
    fn clear(self) -> Call
        ensures { result ≡ clear_call self.list self.resource self.small self.x self.y }
    {
        let size = match self.small {
            0 => None,
            1 => Some(self.y),
            _ => return Call::Unknown,
        };
        Call::ClearBuffer {
            list: self.list,
            resource: self.resource,
            offset: self.x,
            size,
        }
    }

    // The call of the operation. A number is turned into its case at once: an enum of operations would list them twice.
    fn call(self) -> Call
        ensures { result ≡ fields_call self }
    {
        let Fields {
            operation,
            list,
            resource,
            small,
            x,
            y,
        } = self;
        match operation {
            1 => Call::MakeBuffer {
                size: x,
                copy: small,
            },
            3 => Call::Destroy { resource },
            4 => Call::Open { list },
            5 => Call::Close { list },
            6 => Call::Abandon { list },
            7 => Call::Submit { list },
            8 => Call::BufferRead {
                list,
                resource,
                start: x,
                end: y,
            },
            9 => Call::BufferWrite {
                list,
                resource,
                byte: small,
                start: x,
                end: y,
            },
            10 => self.clear(),
            _ => Call::Unknown,
        }
    }
}

// The call that these bytes begin with, or nothing where they are too few; what follows it is not looked at.
pub fn decode_call(bytes: &[u8]) -> Option<Call>
    ensures { result ≡ call_of bytes.now }
{
    if bytes.len() < CALL_BYTES {
        return None;
    }
    let fields = Fields {
        operation: bytes[0],
        list: bytes[1],
        resource: bytes[2],
        small: bytes[3],
        x: long_at(bytes, 8),
        y: long_at(bytes, 16),
    };
    Some(fields.call())
}
