// The numbers of a file, by the place of their first byte; the lowest byte comes first.
ghost use Rattle.std.specs.Prelude.{◌≡◌, ◌+◌, ◌≤◌, length};
ghost use Rattle.session_file.specs.Words.{long, word};

// The 32-bit number at a place. The library has no trait of both widths, so each has a line of its own.
pub(crate) fn word_at(bytes: &[u8], i: usize) -> u32
    requires { i + 4 ≤ length bytes.now }
    ensures { result ≡ word bytes.now i }
{
    u32::from_le_bytes(*bytes[i..].first_chunk().unwrap())
}

// The 64-bit number at a place.
pub(crate) fn long_at(bytes: &[u8], i: usize) -> u64
    requires { i + 8 ≤ length bytes.now }
    ensures { result ≡ long bytes.now i }
{
    u64::from_le_bytes(*bytes[i..].first_chunk().unwrap())
}
