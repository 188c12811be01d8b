// Published values: the standard's check value, and that of a sentence, whole and cut anywhere.
use super::{checksum, update};

#[test]
fn check_value(rt: HostRuntime) {
    assert_eq!(rt; checksum(b"123456789"), 0xCBF4_3926);
}

#[test]
fn nothing(rt: HostRuntime) {
    assert_eq!(rt; checksum(&[]), 0);
}

#[test]
fn cut(rt: HostRuntime) {
    let text = b"The quick brown fox jumps over the lazy dog";
    for i in 0..=text.len() {
        assert_eq!(rt; update(checksum(&text[0..i]), &text[i..]), 0x414F_A339);
    }
}
