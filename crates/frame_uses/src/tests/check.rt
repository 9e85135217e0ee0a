//! Worked examples. No contract says these values: they come from the protocol's reference and
//! from hand calculation.

use super::same;
use ym_check::{CheckState, check16};

/// Whether these bytes have this check.
fn checks(bytes: &[u8], want: u16) -> bool {
    check16(bytes) == want
}

#[test]
fn check_values(rt: HostRuntime) {
    let cases: [(&[u8], u16); 9] = [
        (b"123456789", 0x31c3),
        (b"", 0),
        (&[0x00], 0),
        (&[0x01], 0x1021),
        (&[0x80], 0x9188),
        (&[0x00, 0x00, 0x01], 0x1021),
        (&[0xff], 0x1ef0),
        (b"The quick brown fox jumps over the lazy dog", 0xf0c8),
        (&[0x41; 1024], 0x0179),
    ];
    for (bytes, want) in cases {
        assert!(rt; checks(bytes, want), "{bytes:?}");
    }
}

#[test]
fn check_as_bytes_come(rt: HostRuntime) {
    let mut state = CheckState::new();
    assert!(rt; same(&state.value(), &0));
    for byte in b"123456789" {
        state.add(*byte);
    }
    assert!(rt; same(&state.value(), &0x31c3));
}
