// Headers and calls of a session file at their limits.
use rules::Call;
use session_file::{decode_call, read_header};
use std::test::Fail;

// A header of two calls at 20, with an allowance of 1,024, cells at 255 and a pitch of 256.
const HEADER: [u8; 20] = [
    2, 0, 0, 0, 20, 0, 0, 0, 0, 4, 0, 0, 255, 0, 0, 0, 0, 1, 0, 0,
];

// Whether a file that is this header alone has one.
fn stands(header: [u8; 20]) -> bool {
    read_header(&header).is_some()
}

// A header with one byte changed.
fn changed(i: usize, byte: u8) -> [u8; 20] {
    let mut header = HEADER;
    if i < 20 {
        header[i] = byte;
    }
    header
}

#[test]
fn holds_headers_to_their_limits(rt: HostRuntime) {
    assert!(rt; stands(HEADER));
    assert!(rt; read_header(&HEADER[0..19]).is_none());
    assert!(rt; !stands(changed(4, 19)));
    assert!(rt; !stands(changed(4, 21)));
    assert!(rt; !stands(changed(8, 1)));
    assert!(rt; !stands(changed(13, 1)));
    assert!(rt; !stands(changed(16, 1)));
    assert!(rt; !stands(changed(17, 0)));
}

// Whether the call is unknown.
fn unknown(bytes: &[u8]) -> bool {
    matches!(decode_call(bytes), Some(Call::Unknown))
}

#[test]
fn knows_a_clear_by_its_small_number(rt: HostRuntime) -> Result<(), Fail> {
    let mut bytes = [0; 33];
    bytes[0] = 10;
    bytes[8] = 4;
    bytes[23] = 1;
    assert!(rt; decode_call(&bytes[0..31]).is_none());
    assert!(rt; !unknown(&bytes));
    bytes[3] = 1;
    let Some(Call::ClearBuffer { offset, size, .. }) = decode_call(&bytes) else {
        return Err(Fail::new("another call"));
    };
    assert_eq!(rt; offset, 4);
    assert_eq!(rt; size, Some(1 << 56));
    bytes[3] = 2;
    assert!(rt; unknown(&bytes));
    bytes[0] = 2;
    assert!(rt; unknown(&bytes));
    Ok(())
}
