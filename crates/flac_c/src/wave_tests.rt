//! The calls for WAV files, as a program in C makes them.

use crate::texts::flac_proved_strerror;
use crate::wave_head::flac_proved_wave_head;
use crate::wave_samples::{flac_proved_wave_bytes, flac_proved_wave_samples};
use crate::waves::{FlacProvedWave, flac_proved_wave};
use std::test::Fail;

/// A WAV file of 8 Hz and two channels of 16 bits: the samples 1, -2 and 256, -32768.
const FILE: [u8; 52] =
    *b"RIFF\x2c\0\0\0WAVEfmt \x10\0\0\0\x01\0\x02\0\x08\0\0\0\x20\0\0\0\x04\0\x10\0data\x08\0\0\0\x01\0\xfe\xff\0\x01\0\x80";

/// The same of the depth 12, which only the extensible form of the chunk `fmt ` states.
const HEAD: [u8; 68] =
    *b"RIFF\x44\0\0\0WAVEfmt \x28\0\0\0\xfe\xff\x02\0\x08\0\0\0\x20\0\0\0\x04\0\x10\0\x16\0\x0c\0\x03\0\0\0\x01\0\0\0\0\0\x10\0\x80\0\0\xaa\0\x38\x9b\x71data\x08\0\0\0";

#[test]
fn taken_apart(rt: HostRuntime) -> Result<(), Fail> {
    let mut wave = FlacProvedWave {
        offset: 9,
        len: 9,
        rate: 9,
        channels: 9,
        bits: 9,
        width: 9,
    };
    assert!(rt; flac_proved_wave(rt.alloc(), &FILE[..51], &mut wave) == 69);
    assert!(rt; (wave.offset, wave.rate) == (9, 9));
    assert!(rt; flac_proved_wave(rt.alloc(), &FILE, &mut wave) == 0);
    assert!(rt; (wave.offset, wave.len) == (44, 8));
    assert!(rt; (wave.rate, wave.channels, wave.bits, wave.width) == (8, 2, 16, 2));
    Ok(())
}

#[test]
fn numbers_read(rt: HostRuntime) -> Result<(), Fail> {
    let (mut numbers, mut len) = ([9i32; 5], 99);
    let samples = &FILE[44..];
    let number = flac_proved_wave_samples(rt.alloc(), samples, 2, 16, &mut numbers, &mut len);
    assert!(rt; (number, len) == (0, 4) && numbers == [1, -2, 256, -32768, 9]);
    let number = flac_proved_wave_samples(rt.alloc(), samples, 2, 12, &mut numbers[..3], &mut len);
    assert!(rt; (number, len) == (0, 4) && numbers == [0, -1, 16, -32768, 9]);
    let number = flac_proved_wave_samples(rt.alloc(), samples, 1, 8, &mut numbers[..2], &mut len);
    assert!(rt; (number, len) == (0, 8) && numbers == [-127, -128, 16, -32768, 9]);
    let number = flac_proved_wave_samples(rt.alloc(), samples, 3, 24, &mut numbers, &mut len);
    assert!(rt; (number, len, numbers[0]) == (70, 8, -127));
    let number = flac_proved_wave_samples(rt.alloc(), samples, 2, 17, &mut numbers, &mut len);
    assert!(rt; (number, len, numbers[0]) == (67, 8, -127));
    Ok(())
}

#[test]
fn samples_written(rt: HostRuntime) -> Result<(), Fail> {
    let (mut bytes, mut len) = ([9u8; 9], 99);
    let numbers = [1, -2, 256, -32768];
    let number = flac_proved_wave_bytes(rt.alloc(), &numbers, 2, 16, &mut bytes, &mut len);
    assert!(rt; (number, len, bytes[8]) == (0, 8, 9) && bytes.starts_with(&FILE[44..]));
    let number = flac_proved_wave_bytes(rt.alloc(), &[-1, 7], 3, 20, &mut bytes[..4], &mut len);
    assert!(rt; (number, len) == (0, 6) && bytes.starts_with(&[0xf0, 0xff, 0xff, 0x70, 0]));
    let number = flac_proved_wave_bytes(rt.alloc(), &[-8, 7], 1, 4, &mut bytes, &mut len);
    assert!(rt; (number, len) == (0, 2) && bytes.starts_with(&[0, 0xf0, 0xff]));
    let number = flac_proved_wave_bytes(rt.alloc(), &numbers, 5, 16, &mut bytes, &mut len);
    assert!(rt; (number, len, bytes[1]) == (67, 2, 0xf0));
    Ok(())
}

#[test]
fn head_written(rt: HostRuntime) -> Result<(), Fail> {
    let (mut head, mut len) = ([9u8; 69], 99);
    let number = flac_proved_wave_head(rt.alloc(), 8, 2, 16, 2, &mut head[..44], &mut len);
    assert!(rt; (number, len, head[44]) == (0, 44, 9) && head.starts_with(&FILE[..44]));
    let number = flac_proved_wave_head(rt.alloc(), 8, 2, 12, 2, &mut head, &mut len);
    assert!(rt; (number, len, head[68]) == (0, 68, 9) && head.starts_with(&HEAD));
    let number = flac_proved_wave_head(rt.alloc(), 8, 9, 12, 2, &mut head, &mut len);
    assert!(rt; (number, len, head[0]) == (42, 68, b'R'));
    let number = flac_proved_wave_head(rt.alloc(), 8, 2, 12, 1 << 36, &mut head, &mut len);
    assert!(rt; (number, len) == (45, 68));
    Ok(())
}

#[test]
fn wave_texts_copied(rt: HostRuntime) -> Result<(), Fail> {
    let mut text = *b"................";
    assert!(rt; flac_proved_strerror(70, &mut text) == 13);
    assert!(rt; text == *b"70 PartSample...");
    assert!(rt; flac_proved_strerror(92, &mut text) == 15);
    assert!(rt; text == *b"92 DataUnstated.");
    assert!(rt; flac_proved_strerror(59, &mut text) == 0);
    assert!(rt; flac_proved_strerror(71, &mut text) == 0);
    Ok(())
}
