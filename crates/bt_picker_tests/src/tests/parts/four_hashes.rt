//! Four messages hashed side by side, by the standard's examples (FIPS 180-4) and beside the plain hash.

use crate::tests::abc::{ABC, MILLION};
use bt_check::{FourDigests, hash_four};
use sha1::Sha1;

// NIST's examples for FIPS 180-4, and the empty message.
const EMPTY: [u8; 20] = [
    0xda, 0x39, 0xa3, 0xee, 0x5e, 0x6b, 0x4b, 0x0d, 0x32, 0x55, 0xbf, 0xef, 0x95, 0x60, 0x18, 0x90,
    0xaf, 0xd8, 0x07, 0x09,
];

const TWO_BLOCKS: [u8; 20] = [
    0x84, 0x98, 0x3e, 0x44, 0x1c, 0x3b, 0xd2, 0x6e, 0xba, 0xae, 0x4a, 0xa1, 0xf9, 0x51, 0x29, 0xe5,
    0xe5, 0x46, 0x70, 0xf1,
];

// Whether each lane gives that digest.
fn each_gives(four: [[u8; 20]; 4], digest: [u8; 20]) -> bool {
    let [a, b, c, d] = four;
    a == digest && b == digest && c == digest && d == digest
}

// Whether the lanes give what the plain hash gives of each message.
fn are_plain(four: [[u8; 20]; 4], a: &[u8], b: &[u8], c: &[u8], d: &[u8]) -> bool {
    let [first, second, third, fourth] = four;
    first == Sha1::digest(a)
        && second == Sha1::digest(b)
        && third == Sha1::digest(c)
        && fourth == Sha1::digest(d)
}

// 200 bytes of the powers of a number.
fn powers(of: u8) -> [u8; 200] {
    let mut bytes = [0; 200];
    let mut next = of;
    for i in 0..200 {
        bytes[i] = next;
        next = next.wrapping_mul(of).wrapping_add(1);
    }
    bytes
}

#[test]
fn each_lane_gives_the_standards_digests(rt: HostRuntime) {
    let long = b"abcdbcdecdefdefgefghfghighijhijkijkljklmklmnlmnomnopnopq";
    assert!(rt; each_gives(hash_four(b"", b"", b"", b""), EMPTY));
    assert!(rt; each_gives(hash_four(b"abc", b"abc", b"abc", b"abc"), ABC));
    assert!(rt; each_gives(hash_four(long, long, long, long), TWO_BLOCKS));
}

#[test]
fn a_million_bytes_come_in_pieces_of_999(rt: HostRuntime) {
    let piece = [b'a'; 999];
    let mut four = FourDigests::new();
    for _ in 0..1001 {
        four.update(&piece, &piece, &piece, &piece);
    }
    four.update(b"a", b"a", b"a", b"a");
    assert!(rt; each_gives(four.finish(), MILLION));
}

#[test]
fn each_length_gives_the_plain_digests(rt: HostRuntime) {
    let (a, b, c, d) = (powers(3), powers(5), powers(7), powers(11));
    for n in 0..201 {
        let (a, b, c, d) = (&a[..n], &b[..n], &c[..n], &d[..n]);
        assert!(rt; are_plain(hash_four(a, b, c, d), a, b, c, d), "at {n}");
    }
}

#[test]
fn pieces_of_each_length_give_the_plain_digests(rt: HostRuntime) {
    let (a, b, c, d) = (powers(3), powers(5), powers(7), powers(11));
    for n in 0..201 {
        let mut four = FourDigests::new();
        four.update(&a[..n], &b[..n], &c[..n], &d[..n]);
        four.update(&a[n..], &b[n..], &c[n..], &d[n..]);
        assert!(rt; are_plain(four.finish(), &a, &b, &c, &d), "cut at {n}");
    }
}

#[test]
fn messages_of_other_lengths_give_the_standards_digests(rt: HostRuntime) {
    let long = b"abcdbcdecdefdefgefghfghighijhijkijkljklmklmnlmnomnopnopq";
    let [first, second, third, fourth] = hash_four(b"abc", b"abc", long, b"");
    assert!(rt; first == ABC);
    assert!(rt; second == ABC);
    assert!(rt; third == TWO_BLOCKS);
    assert!(rt; fourth == EMPTY);
}
