// Published values of Murmur3 (x86, 32 bits): those of the article "MurmurHash" of Wikipedia, those of Ian Boyd's
// list "Murmur3 test vectors" on Stack Overflow, and of "hello" that of the tests of spaolacci/murmur3.
use murmur_core::{murmur3_32, sticky_hash};
use std::process::Abort;

const FOX: &str = "The quick brown fox jumps over the lazy dog";

const OTHER_START: u32 = 0x9747_b28c;

/// Texts, from which start they are hashed, and their hashes.
const TEXTS: &[(&str, u32, u32)] = &[
    ("", 0, 0x0000_0000),
    ("test", 0, 0xba6b_d213),
    ("hello", 0, 0x248b_fa47),
    ("Hello, world!", 0, 0xc036_3e43),
    (FOX, 0, 0x2e4f_f723),
    ("", 1, 0x514e_28b7),
    ("", 0xffff_ffff, 0x81f1_6f39),
    ("", OTHER_START, 0xebb6_c228),
    ("a", OTHER_START, 0x7fa0_9ea6),
    ("aa", OTHER_START, 0x5d21_1726),
    ("aaa", OTHER_START, 0x283e_0130),
    ("aaaa", OTHER_START, 0x5a97_808a),
    ("ab", OTHER_START, 0x7487_5592),
    ("abc", OTHER_START, 0xc84a_62dd),
    ("abcd", OTHER_START, 0xf047_8627),
    ("test", OTHER_START, 0x704b_81dc),
    ("Hello, world!", OTHER_START, 0x2488_4cba),
    (FOX, OTHER_START, 0x2fa8_26cd),
];

/// Keys, with the lowest 16 bits of their hashes.
const KEYS: &[(&str, u16)] = &[
    ("", 0),
    ("test", 53_779),
    ("hello", 64_071),
    ("Hello, world!", 15_939),
    (FOX, 63_267),
];

fn check<R: Abort>(rt: &R, bytes: &[u8], start: u32, want: u32) {
    assert_eq!(rt; murmur3_32(bytes, start), want);
}

fn check_key<R: Abort>(rt: &R, key: &str, want: u16) {
    assert_eq!(rt; sticky_hash(Some(key)), want);
}

fn check_keys<R: Abort>(rt: &R) {
    for (key, want) in KEYS {
        check_key(rt, key, *want);
    }
    assert_eq!(rt; sticky_hash(None), sticky_hash(Some("NONE_KEY")));
}

#[test]
fn hashes_are_those_of_murmur(rt: HostRuntime) {
    for (text, start, want) in TEXTS {
        check(&rt, text.as_bytes(), *start, *want);
    }
    check_keys(&rt);
}

#[test]
fn bytes_of_each_length(rt: HostRuntime) {
    check(&rt, &[0xff, 0xff, 0xff, 0xff], 0, 0x7629_3b50);
    check(&rt, &[0x21, 0x43, 0x65, 0x87], 0, 0xf55b_516b);
    check(&rt, &[0x21, 0x43, 0x65, 0x87], 0x5082_edee, 0x2362_f9de);
    check(&rt, &[0x21, 0x43, 0x65], 0, 0x7e4a_8634);
    check(&rt, &[0x21, 0x43], 0, 0xa0f7_b07a);
    check(&rt, &[0x21], 0, 0x7266_1cf4);
    check(&rt, &[0, 0, 0, 0], 0, 0x2362_f9de);
    check(&rt, &[0, 0, 0], 0, 0x85f0_b427);
    check(&rt, &[0, 0], 0, 0x30f4_c306);
    check(&rt, &[0], 0, 0x514e_28b7);
}
