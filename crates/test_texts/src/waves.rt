//! Each call as a program makes it.

ghost use Rattle.std.specs.Prelude.{◌<◌, ◌≤◌};
ghost use Rattle.flac_wave.specs.Plain.{CanBeWritten};

use flac_bits::{Memory, Pieces};
use flac_wave::{
    Limited, WaveError, WaveFault, WaveFormat, WaveWhy, begins_wave, cut, cut_after, front_fault,
    is_unstated, lower, plain_pieces, raise, read_all, read_at_most, read_front, size_in, wave_of,
};
use std::alloc::Global;
use std::test::Fail;

/// What the module `wave` of Python 3.11 writes of two inter-channel samples of two channels, 16 bits, 44100 Hz.
const STEREO: [u8; 52] = [
    0x52, 0x49, 0x46, 0x46, 0x2c, 0x00, 0x00, 0x00, 0x57, 0x41, 0x56, 0x45, 0x66, 0x6d, 0x74, 0x20,
    0x10, 0x00, 0x00, 0x00, 0x01, 0x00, 0x02, 0x00, 0x44, 0xac, 0x00, 0x00, 0x10, 0xb1, 0x02, 0x00,
    0x04, 0x00, 0x10, 0x00, 0x64, 0x61, 0x74, 0x61, 0x08, 0x00, 0x00, 0x00, 0x01, 0x02, 0x03, 0x04,
    0x05, 0x06, 0x07, 0x08,
];

/// The format of [`STEREO`].
const FORMAT: WaveFormat = WaveFormat {
    rate: 44100,
    channels: 2,
    bits: 16,
    valid: 16,
    mask: None,
};

/// Pieces, one after another.
fn joined(alloc: Global, pieces: &[Vec<u8>]) -> Result<Vec<u8>, Fail> {
    let mut all = Vec::new(alloc);
    for piece in pieces {
        all.extend_from_slice(piece.as_slice())?;
    }
    Ok(all)
}

#[test]
fn files_are_taken_apart(rt: HostRuntime) -> Result<(), Fail> {
    let wave = wave_of(rt.alloc(), &STEREO, false)?;
    let front = joined(rt.alloc(), wave.pieces.as_slice())?;
    assert!(rt; wave.format == FORMAT && wave.format.row() == 4);
    assert!(rt; wave.pieces.len() == 3 && front.as_slice() == &STEREO[..44]);
    assert!(rt;
        begins_wave(&STEREO[..12]) && !begins_wave(&STEREO[..11]) && !begins_wave(&STEREO[12..])
    );
    assert!(rt; wave.samples == &STEREO[44..] && wave.back.is_empty());
    Ok(())
}

/// A file of three samples of one channel of 8 bits at 8000 Hz, with a chunk of odd length before them and one after
/// them: the module `wave` writes the same chunks `fmt ` and `data`.
const ODD: [u8; 84] = [
    0x52, 0x49, 0x46, 0x46, 0x4c, 0x00, 0x00, 0x00, 0x57, 0x41, 0x56, 0x45, 0x4a, 0x55, 0x4e, 0x4b,
    0x03, 0x00, 0x00, 0x00, 0x6f, 0x64, 0x64, 0x00, 0x66, 0x6d, 0x74, 0x20, 0x10, 0x00, 0x00, 0x00,
    0x01, 0x00, 0x01, 0x00, 0x40, 0x1f, 0x00, 0x00, 0x40, 0x1f, 0x00, 0x00, 0x01, 0x00, 0x08, 0x00,
    0x64, 0x61, 0x74, 0x61, 0x03, 0x00, 0x00, 0x00, 0x7f, 0x80, 0x81, 0x00, 0x4c, 0x49, 0x53, 0x54,
    0x04, 0x00, 0x00, 0x00, 0x49, 0x4e, 0x46, 0x4f, 0x69, 0x64, 0x33, 0x20, 0x03, 0x00, 0x00, 0x00,
    0x49, 0x44, 0x33, 0x00,
];

/// What is read of a file, of which a number of bytes come at once: what comes before the samples, joined, how many
/// bytes of these are stated, those that came, whether some are missing, and what follows them.
fn read_by(
    alloc: Global,
    file: &[u8],
    most: usize,
) -> Result<(Vec<u8>, Option<u64>, Vec<u8>, bool, Vec<u8>), Fail>
    requires { 1 ≤ most }
{
    let mut source = Pieces::new(Memory::new(file), most);
    let front = read_front(alloc, &mut source, false)?;
    let before = joined(alloc, front.pieces.as_slice())?;
    let mut part = Limited::new(&mut source, front.size);
    let samples = read_all(alloc, &mut part)?;
    let cut = part.is_cut();
    let back = read_all(alloc, part.into_source())?;
    Ok((before, front.size, samples, cut, back))
}

#[test]
fn files_are_read_part_by_part(rt: HostRuntime) -> Result<(), Fail> {
    for most in 1..9 {
        let (before, size, samples, cut, back) = read_by(rt.alloc(), &ODD, most)?;
        assert!(rt; before.as_slice() == &ODD[..56] && size == Some(3) && !cut);
        assert!(rt; samples.as_slice() == &ODD[56..59] && back.as_slice() == &ODD[59..]);
    }
    Ok(())
}

#[test]
fn files_that_end_in_their_samples(rt: HostRuntime) -> Result<(), Fail> {
    let (_, size, samples, cut, back) = read_by(rt.alloc(), &ODD[..58], 7)?;
    assert!(rt; size == Some(3) && samples.as_slice() == &ODD[56..58] && cut && back.is_empty());
    assert!(rt; front_fault(false, cut, true) == Some(WaveWhy::DataCut));
    assert!(rt;
        front_fault(true, cut, true) == None
            && front_fault(true, cut, false) == Some(WaveWhy::PartSample)
    );
    let wave = wave_of(rt.alloc(), &ODD[..58], true)?;
    assert!(rt; wave.samples == &ODD[56..58] && wave.back.is_empty());
    Ok(())
}

#[test]
fn a_few_bytes_are_read(rt: HostRuntime) -> Result<(), Fail> {
    let mut source = Memory::new(&ODD);
    let first = read_at_most(rt.alloc(), &mut source, 12)?;
    let all = read_all(rt.alloc(), &mut source)?;
    assert!(rt; first.as_slice() == &ODD[..12] && all.as_slice() == &ODD[12..]);
    let more = read_at_most(rt.alloc(), &mut source, 12)?;
    assert!(rt; more.is_empty());
    Ok(())
}

/// The pieces of a file before its samples, and those after them, each joined, with their number.
fn kept(alloc: Global, file: &[u8]) -> Result<(usize, Vec<u8>, usize, Vec<u8>), Fail> {
    let wave = wave_of(alloc, file, false)?;
    let after = cut(alloc, wave.samples, wave.back)?;
    let front = joined(alloc, wave.pieces.as_slice())?;
    let back = joined(alloc, after.as_slice())?;
    Ok((wave.pieces.len(), front, after.len(), back))
}

#[test]
fn what_follows_is_cut(rt: HostRuntime) -> Result<(), Fail> {
    // The samples are no piece, and neither is the zero after them.
    let (before, front, after, back) = kept(rt.alloc(), &ODD)?;
    assert!(rt; before == 4 && front.as_slice() == &ODD[..56]);
    assert!(rt; after == 2 && back.as_slice() == &ODD[60..]);
    Ok(())
}

#[test]
fn what_is_no_chunk_is_kept(rt: HostRuntime) -> Result<(), Fail> {
    // Without a zero after the samples one piece more comes first, of no byte.
    let mut file = ODD;
    file[59] = 7;
    let (before, front, after, back) = kept(rt.alloc(), &file)?;
    assert!(rt; before == 4 && front.as_slice() == &file[..56]);
    assert!(rt; after == 2 && back.as_slice() == &file[59..]);
    Ok(())
}

#[test]
fn only_the_parity_of_samples_counts(rt: HostRuntime) -> Result<(), Fail> {
    let odd = cut_after(rt.alloc(), true, &ODD[59..])?;
    let even = cut_after(rt.alloc(), false, &ODD[60..])?;
    assert!(rt; odd.len() == 2 && even.len() == 2);
    let all = joined(rt.alloc(), odd.as_slice())?;
    let same = joined(rt.alloc(), even.as_slice())?;
    assert!(rt; all.as_slice() == &ODD[60..] && same.as_slice() == &ODD[60..]);
    Ok(())
}

/// Whether a file is refused for this reason, after this number of chunks.
fn is_refused(alloc: Global, file: &[u8], chunk: Option<u64>, why: WaveWhy) -> bool {
    match wave_of(alloc, file, false) {
        Ok(_) => false,
        Err(error) => error == WaveError::Fault(WaveFault { chunk, why }),
    }
}

#[test]
fn what_is_no_file_is_refused(rt: HostRuntime) -> Result<(), Fail> {
    let alloc = rt.alloc();
    let mut file = STEREO;
    assert!(rt; is_refused(alloc, &file[..11], None, WaveWhy::NotWave));
    assert!(rt; is_refused(alloc, &file[..12], Some(0), WaveWhy::NoData));
    assert!(rt; is_refused(alloc, &file[..35], Some(0), WaveWhy::ChunkCut));
    assert!(rt; is_refused(alloc, &file[..50], Some(1), WaveWhy::DataCut));
    file[40] = 6;
    assert!(rt; is_refused(alloc, &file, Some(1), WaveWhy::PartSample));
    file[20] = 3;
    assert!(rt; is_refused(alloc, &file, Some(0), WaveWhy::Coding));
    assert!(rt; WaveWhy::Coding.number() == 66 && WaveWhy::Coding.as_str() == "66 Coding");
    file[0] = b'r';
    assert!(rt; is_refused(alloc, &file, None, WaveWhy::NotWave));
    Ok(())
}

/// What a recorder leaves of [`STEREO`] that ends before its time: the header states 36 bytes after its first 8, and 0
/// bytes of samples; then comes the rest.
fn left_over(alloc: Global, rest: &[u8]) -> Result<Vec<u8>, Fail> {
    let mut file = Vec::from_slice(alloc, &STEREO[..4])?;
    file.extend_from_slice(&[36, 0, 0, 0])?;
    file.extend_from_slice(&STEREO[8..40])?;
    file.extend_from_slice(&[0; 4])?;
    file.extend_from_slice(rest)?;
    Ok(file)
}

/// Whether such a file is refused if its samples may not go to its end, and else has all of the rest as samples.
fn is_without_length(alloc: Global, rest: &[u8]) -> Result<bool, Fail> {
    let file = left_over(alloc, rest)?;
    let refused = is_refused(alloc, file.as_slice(), Some(1), WaveWhy::DataUnstated);
    let wave = wave_of(alloc, file.as_slice(), true)?;
    Ok(refused && wave.samples == rest && wave.back.is_empty())
}

/// Whether such a file has no samples, and all of the rest after them.
fn has_no_samples(alloc: Global, rest: &[u8], to_end: bool) -> Result<bool, Fail> {
    let file = left_over(alloc, rest)?;
    let wave = wave_of(alloc, file.as_slice(), to_end)?;
    Ok(wave.samples.is_empty() && wave.back == rest)
}

#[test]
fn samples_without_a_length(rt: HostRuntime) -> Result<(), Fail> {
    let alloc = rt.alloc();
    let chunk = b"LIST\x04\0\0\0INFO";
    // Samples, silence, an identifier alone, a chunk that is cut.
    let sound = is_without_length(alloc, &STEREO[44..])?;
    let silence = is_without_length(alloc, &[0; 64])?;
    let short = is_without_length(alloc, &chunk[..4])?;
    let cut = is_without_length(alloc, &chunk[..8])?;
    assert!(rt; sound && silence && short && cut);
    assert!(rt; WaveWhy::DataUnstated.number() == 92);
    assert!(rt; WaveWhy::DataUnstated.as_str() == "92 DataUnstated");
    Ok(())
}

#[test]
fn files_without_samples(rt: HostRuntime) -> Result<(), Fail> {
    let alloc = rt.alloc();
    let chunk = b"LIST\x04\0\0\0INFO";
    for to_end in [false, true] {
        let none = has_no_samples(alloc, &[], to_end)?;
        let one = has_no_samples(alloc, chunk, to_end)?;
        assert!(rt; none && one);
        assert!(rt; size_in(to_end, Some(0), chunk) == Some(0));
        assert!(rt; size_in(to_end, Some(8), &[0; 8]) == Some(8));
    }
    assert!(rt; is_unstated(Some(0), &chunk[..11]) && !is_unstated(None, &[0; 8]));
    assert!(rt;
        size_in(true, Some(0), &[0; 8]) == None && size_in(false, Some(0), &[0; 8]) == Some(0)
    );
    Ok(())
}

/// Whether these are the pieces of a plain file, one after another, and this their number.
fn is_plain(
    alloc: Global,
    format: WaveFormat,
    total: u64,
    count: usize,
    all: &[u8],
) -> Result<bool, Fail>
    requires format { CanBeWritten format }
    requires total { total < 68719476736 }
{
    let pieces = plain_pieces(alloc, &format, total)?;
    let made = joined(alloc, pieces.as_slice())?;
    Ok(pieces.len() == count && made.as_slice() == all)
}

/// Before four inter-channel samples of six channels of 20 bits at 48000 Hz.
const EXTENSIBLE: [u8; 68] = [
    0x52, 0x49, 0x46, 0x46, 0x84, 0x00, 0x00, 0x00, 0x57, 0x41, 0x56, 0x45, 0x66, 0x6d, 0x74, 0x20,
    0x28, 0x00, 0x00, 0x00, 0xfe, 0xff, 0x06, 0x00, 0x80, 0xbb, 0x00, 0x00, 0x00, 0x2f, 0x0d, 0x00,
    0x12, 0x00, 0x18, 0x00, 0x16, 0x00, 0x14, 0x00, 0x3f, 0x00, 0x00, 0x00, 0x01, 0x00, 0x00, 0x00,
    0x00, 0x00, 0x10, 0x00, 0x80, 0x00, 0x00, 0xaa, 0x00, 0x38, 0x9b, 0x71, 0x64, 0x61, 0x74, 0x61,
    0x48, 0x00, 0x00, 0x00,
];

/// Before 2^31 inter-channel samples of [`FORMAT`], 8 GiB.
const LONG: [u8; 80] = [
    0x52, 0x46, 0x36, 0x34, 0xff, 0xff, 0xff, 0xff, 0x57, 0x41, 0x56, 0x45, 0x64, 0x73, 0x36, 0x34,
    0x1c, 0x00, 0x00, 0x00, 0x48, 0x00, 0x00, 0x00, 0x02, 0x00, 0x00, 0x00, 0x00, 0x00, 0x00, 0x00,
    0x02, 0x00, 0x00, 0x00, 0x00, 0x00, 0x00, 0x80, 0x00, 0x00, 0x00, 0x00, 0x00, 0x00, 0x00, 0x00,
    0x66, 0x6d, 0x74, 0x20, 0x10, 0x00, 0x00, 0x00, 0x01, 0x00, 0x02, 0x00, 0x44, 0xac, 0x00, 0x00,
    0x10, 0xb1, 0x02, 0x00, 0x04, 0x00, 0x10, 0x00, 0x64, 0x61, 0x74, 0x61, 0xff, 0xff, 0xff, 0xff,
];

#[test]
fn plain_files_are_written(rt: HostRuntime) -> Result<(), Fail> {
    let alloc = rt.alloc();
    let format = WaveFormat::plain(44100, 2, 16);
    let short = is_plain(alloc, format, 2, 3, &STEREO[..44])?;
    let extensible = is_plain(alloc, WaveFormat::plain(48000, 6, 20), 4, 3, &EXTENSIBLE)?;
    let long = is_plain(alloc, format, 2_147_483_648, 4, &LONG)?;
    // If the number of samples is unknown, both lengths are FFFFFFFF, and a piece without a byte comes last.
    let mut open = STEREO;
    open[4..8].copy_from_slice(&[255; 4]);
    open[40..44].copy_from_slice(&[255; 4]);
    let unknown = is_plain(alloc, format, 0, 4, &open[..44])?;
    assert!(rt; format == FORMAT && short && extensible && long && unknown);
    Ok(())
}

#[test]
fn samples_are_lowered_and_raised(rt: HostRuntime) -> Result<(), Fail> {
    // -2048, 2047 and -1 of 12 bits, as they are in two bytes of a file, and in two of a stream.
    let file = [0x00, 0x80, 0xf0, 0x7f, 0xf0, 0xff];
    let format = WaveFormat::plain(44100, 1, 12);
    assert!(rt; format.depth_of(&file) == 12 && format.depth_of(&[0x00, 0x80, 0xf8, 0x7f]) == 16);
    assert!(rt; format.known_depth() == None && FORMAT.known_depth() == Some(16));
    let low = lower(rt.alloc(), 2, 2, 4, &file)?;
    assert!(rt; low.as_slice() == [0x00, 0xf8, 0xff, 0x07, 0xff, 0xff].as_slice());
    let mut again = [1u8; 8];
    let count = raise(2, 2, 4, low.as_slice(), &mut again);
    assert!(rt; count == 6 && &again[..6] == file.as_slice() && again[7] == 1);
    // -2 of 8 bits in a byte of a stream, and in three bytes of a file.
    let extensible = raise(1, 3, 16, &[0xfe], &mut again);
    assert!(rt; extensible == 3 && &again[..3] == [0x00, 0x00, 0xfe].as_slice());
    Ok(())
}

/// The speakers of 6 channels, of which the reference has those at the side, and RFC 9639 those at the back.
#[test]
fn speakers_that_are_others(rt: HostRuntime) -> Result<(), Fail> {
    let six = WaveFormat {
        channels: 6,
        mask: Some(0x60F),
        ..FORMAT
    };
    let back = WaveFormat {
        mask: Some(0x3F),
        ..six
    };
    assert!(rt; six.other_mask() == Some(0x60F));
    assert!(rt; back.other_mask() == None && FORMAT.other_mask() == None);
    Ok(())
}
