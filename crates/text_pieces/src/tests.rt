//! Worked rows: texts, with the parts and the numbers that others give them.

use super::*;

#[test]
fn cuts(rt: HostRuntime) {
    assert!(rt; cut_first(b'#', b"m/0#7#8") == Some((b"m/0".as_slice(), b"7#8".as_slice())));
    assert!(rt; cut_last(b'#', b"m/0#7#8") == Some((b"m/0#7".as_slice(), b"8".as_slice())));
    assert!(rt; cut_first(b'#', b"#") == Some((b"".as_slice(), b"".as_slice())));
    assert!(rt; cut_last(b'#', b"m/0").is_none());
}

#[test]
fn numbers(rt: HostRuntime) {
    assert_eq!(rt; number_u32(b"007"), Some(7));
    assert_eq!(rt; number_u32(b"4294967295"), Some(u32::MAX));
    assert_eq!(rt; number_u32(b"4294967296"), None);
    assert_eq!(rt; number_u64(b"18446744073709551615"), Some(u64::MAX));
    assert_eq!(rt; number_u64(b"+7"), None);
    assert_eq!(rt; plain_number_u32(b"0"), Some(0));
    assert_eq!(rt; plain_number_u64(b"007"), None);
    assert_eq!(rt; plain_number_u64(b"10"), Some(10));
    assert!(rt; is_plain(b"99999999999999999999"));
    assert!(rt; !is_plain(b"00"));
}
