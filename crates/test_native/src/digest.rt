//! The samples of a block as input of the digest, and which frames have a seek point.

use flac_native::{count_points, feed_slices, has_point};
use md5::{Digest, Md5};
use std::test::Fail;

/// Two channels of 16 bits: the digest of 1, -1, 2, -2, 32767, -32768 in two bytes each, by Python's hashlib.
const DIGEST: [u8; 16] = [
    0xB9, 0x9A, 0xF0, 0x8B, 0x23, 0x6A, 0x45, 0x04, 0xC1, 0x07, 0xA9, 0x9A, 0x80, 0x8A, 0x6F, 0x43,
];

/// The samples of slices are fed by turns, as many as are asked for.
#[test]
fn slices(rt: HostRuntime) -> Result<(), Fail> {
    let mut hasher = Md5::new();
    let block = [[1, 2, 32767, 9].as_slice(), [-1, -2, -32768].as_slice()];
    feed_slices(&mut hasher, block.as_slice(), 3, 2);
    assert!(rt; hasher.finalize() == DIGEST);
    Ok(())
}

/// Points are at the samples 0, 5000, 10000, .. : of three frames of 10000 samples, or of 10001.
#[test]
fn points(rt: HostRuntime) -> Result<(), Fail> {
    assert!(rt; has_point(4096, 10000, 5000, 0) && has_point(4096, 10000, 5000, 1));
    assert!(rt; !has_point(4096, 10000, 5000, 2) && has_point(4096, 10001, 5000, 2));
    assert!(rt; count_points(4096, 10000, 5000) == 2);
    assert!(rt; count_points(4096, 10001, 5000) == 3);
    assert!(rt; count_points(4096, 10000, 0) == 0);
    Ok(())
}
