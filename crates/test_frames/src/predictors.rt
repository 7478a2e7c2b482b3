//! Linear predictors that are handed in, worked by hand from RFC 9639.

ghost use Rattle.std.specs.Prelude.{◌≡◌};

use crate::lax_subframes::written_in;
use crate::subframes::all_fit;
use flac_bits::{BitWriter, Collected, Target, Why};
use flac_frame::{
    Audio, EncodeBuffers, encode_frame_with, frame_family_with_is_plain, greatest_order,
};
use flac_header::Profile;
use flac_subframe::{
    Choice, Limits, LinearPredictor, choose, choose_with, family_with_is_plain, write_subframe_with,
};
use std::alloc::Global;
use std::process::Abort;
use std::test::Fail;
use test_vectors::WAVE_SAMPLES;

/// Whether a predictor is refused.
fn refuses(precision: u32, shift: u32, coefficients: &[i32]) -> bool {
    LinearPredictor::new(precision, shift, coefficients).is_none()
}

#[test]
fn judges_predictors(rt: HostRuntime) {
    assert!(rt; refuses(0, 0, &[0]) && !refuses(1, 0, &[0]));
    assert!(rt; refuses(16, 0, &[0]) && !refuses(15, 0, &[0]));
    assert!(rt; refuses(4, 16, &[1]) && !refuses(4, 15, &[1]));
    assert!(rt; refuses(4, 0, &[]));
    assert!(rt; refuses(4, 0, &[1; 33]) && !refuses(4, 0, &[1; 32]));
    assert!(rt; refuses(1, 0, &[1]) && !refuses(1, 0, &[-1]) && refuses(1, 0, &[-2]));
    assert!(rt; refuses(4, 0, &[7, 8]) && !refuses(4, 0, &[7, -8]) && refuses(4, 0, &[-9]));
}

#[test]
fn reads_predictors(rt: HostRuntime) -> Result<(), Fail> {
    let predictor = LinearPredictor::new(12, 9, &[1023, -2048, 7]);
    let Some(predictor) = predictor else {
        assert!(rt; false);
        return Ok(());
    };
    assert!(rt; predictor.order() == 3);
    assert!(rt; predictor.precision() == 12);
    assert!(rt; predictor.shift() == 9);
    assert!(rt; predictor.coefficients() == [1023, -2048, 7].as_slice());
    assert!(rt; predictor.clone()? == predictor);
    let list = [predictor];
    assert!(rt; LinearPredictor::are_within(&list, 3) && !LinearPredictor::are_within(&list, 2));
    Ok(())
}

/// The shortest subframe of 1 to 16 samples with predictors beside the fixed ones, and partition orders up to 8.
fn chosen(samples: &[i64], depth: u32, predictors: &[LinearPredictor]) -> Option<Choice> {
    let limits = Limits {
        partition: 8,
        linear: 32,
    };
    let len = samples.len();
    if len == 0 || len > 16 || depth == 0 || depth > 33 {
        return None;
    }
    if !all_fit(samples, depth) || !LinearPredictor::are_within(predictors, 32) {
        return None;
    }
    Some(choose_with(samples, depth, &limits, predictors))
}

/// How many bits it takes, 0 if it is asked for nothing that may be.
fn bits_of(samples: &[i64], depth: u32, predictors: &[LinearPredictor]) -> u64 {
    chosen(samples, depth, predictors).map_or(0, |choice| choice.bits())
}

/// Its bits, with zeros up to a whole byte.
fn written(
    alloc: Global,
    samples: &[i64],
    depth: u32,
    predictors: &[LinearPredictor],
) -> Result<Vec<u8>, Why> {
    let len = samples.len();
    if len == 0 || len > 65535 || depth == 0 || depth > 33 {
        return Err(Why::BlockSize);
    }
    if !all_fit(samples, depth) || !LinearPredictor::are_within(predictors, 32) {
        return Err(Why::SampleRange);
    }
    let limits = Limits {
        partition: 8,
        linear: 32,
    };
    let choice = choose_with(samples, depth, &limits, predictors);
    let mut writer = BitWriter::new(Collected::new(alloc));
    write_subframe_with(&choice, predictors, samples, depth, &mut writer)?;
    writer.align()?;
    writer.finish()?;
    Ok(writer.into_target().into_bytes())
}

/// A wave of two samples, which a predictor of the coefficient -1 foretells.
const WAVE: [i64; 16] = [
    1001, -1001, 1001, -1001, 1001, -1001, 1001, -1001, 1001, -1001, 1001, -1001, 1001, -1001,
    1001, -1001,
];

/// Whether this is the subframe of the wave, from either call.
fn writes(alloc: Global, predictors: &[LinearPredictor], wanted: &[u8]) -> Result<bool, Fail> {
    let first = written(alloc, &WAVE, 16, predictors)?;
    let (_, second) = written_in(alloc, &WAVE, 16, 8, predictors)?;
    Ok(first.as_slice() == wanted && second.as_slice() == wanted)
}

/// 8 bits of the header, 16 of a warm-up sample, 10 of the predictor and 15 of a residual of zeros, against 8 bits of
/// the header and 183 of a residual of 16 numbers of 11 bits.
#[test]
fn writes_by_a_predictor(rt: HostRuntime) -> Result<(), Fail> {
    family_with_is_plain();
    let Some(predictor) = LinearPredictor::new(1, 0, &[-1]) else {
        assert!(rt; false);
        return Ok(());
    };
    let list = [predictor];
    assert!(rt; bits_of(&WAVE, 16, &[]) == 199);
    assert!(rt; bits_of(&WAVE, 16, &list) == 49);
    assert!(rt; bits_of(&WAVE[..1], 16, &list) == 24);
    assert!(rt;
        writes(
            rt.alloc(),
            &list,
            &[0x40, 0x03, 0xE9, 0x00, 0x40, 0xF0, 0x00]
        )?
    );
    let bytes = written(rt.alloc(), &WAVE, 16, &[])?;
    assert!(rt; bytes.len() == 25 && bytes.as_slice()[0] == 0x10);
    Ok(())
}

/// A predictor of as many coefficients as the block has samples is not in the family. One of two takes 17 bits more
/// than one of one.
#[test]
fn asks_for_more_samples(rt: HostRuntime) {
    let mut coefficients = [0; 16];
    coefficients[0] = -1;
    let all = LinearPredictor::new(1, 0, &coefficients);
    let two = LinearPredictor::new(1, 0, &coefficients[..2]);
    let (Some(all), Some(two)) = (all, two) else {
        return assert!(rt; false);
    };
    let list = [all, two];
    assert!(rt; bits_of(&WAVE, 16, &list[..1]) == 199);
    assert!(rt; bits_of(&WAVE, 16, &list) == 66);
}

/// A predictor that leaves 2^31 is not in the family, and neither is a fixed one of a sample of -2^31.
#[test]
fn keeps_the_range(rt: HostRuntime) {
    let Some(predictor) = LinearPredictor::new(15, 0, &[-16384]) else {
        return assert!(rt; false);
    };
    let list = [predictor];
    let mut samples = [0; 16];
    samples[0] = 1;
    samples[14] = 131072;
    samples[15] = -2147483648;
    assert!(rt; bits_of(&samples, 32, &[]) == 520);
    assert!(rt; bits_of(&samples, 32, &list) < 520);
    samples[14] = 262144;
    assert!(rt; bits_of(&samples, 32, &list) == 520);
}

/// The first byte is the subframe's type, after a zero and before the flag of wasted bits.
fn first_byte(
    alloc: Global,
    samples: &[i64],
    depth: u32,
    predictors: &[LinearPredictor],
) -> Result<u8, Why> {
    let bytes = written(alloc, samples, depth, predictors)?;
    Ok(bytes.as_slice().first().copied().unwrap_or(255))
}

/// Of equals the verbatim and the fixed forms come first. Of two samples in 21 bits the linear form takes 21 bits for
/// the warm-up sample and 21 beside it, as many as the verbatim one does without its header. Of sixteen in 22 bits it
/// takes 22 and 25, the fixed one 6, 9 for an escape, and 2 for each.
#[test]
fn takes_the_plain_one_of_equals(rt: HostRuntime) -> Result<(), Fail> {
    let alloc = rt.alloc();
    let Some(predictor) = LinearPredictor::new(1, 0, &[-1]) else {
        assert!(rt; false);
        return Ok(());
    };
    let list = [predictor];
    let two = [1000001, -1000001];
    assert!(rt; bits_of(&two, 21, &list) == 50 && first_byte(alloc, &two, 21, &list)? == 0x02);
    assert!(rt; bits_of(&two, 22, &list) == 51 && first_byte(alloc, &two, 22, &list)? == 0x40);
    let ones = [1, -1, 1, -1, 1, -1, 1, -1, 1, -1, 1, -1, 1, -1, 1, -1];
    assert!(rt; bits_of(&ones, 22, &list) == 55 && first_byte(alloc, &ones, 22, &list)? == 0x10);
    assert!(rt; bits_of(&ones, 21, &list) == 54 && first_byte(alloc, &ones, 21, &list)? == 0x40);
    Ok(())
}

/// Of predictors that take as many bits the first of the list comes first: a coefficient of -1, and one of -2 with a
/// shift of 1.
#[test]
fn takes_the_first_of_equals(rt: HostRuntime) -> Result<(), Fail> {
    let alloc = rt.alloc();
    let one = LinearPredictor::new(3, 0, &[-1]);
    let two = LinearPredictor::new(3, 1, &[-2]);
    let (Some(one), Some(two)) = (one, two) else {
        assert!(rt; false);
        return Ok(());
    };
    let both = [one, two];
    assert!(rt; writes(alloc, &both, &[0x40, 0x03, 0xE9, 0x20, 0x70, 0x3C, 0x00])?);
    let [one, two] = both;
    assert!(rt;
        writes(
            alloc,
            &[two, one],
            &[0x40, 0x03, 0xE9, 0x20, 0xE0, 0x3C, 0x00]
        )?
    );
    assert!(rt; chosen(&[0; 8], 16, &[]) == Some(choose(&[0; 8], 16)));
    Ok(())
}

/// Writes 1 to 16 samples as frame 0 with predictors, and returns how many bytes it has.
fn write_frame_of<W: Target>(
    alloc: Global,
    audio: &Audio,
    predictors: &[LinearPredictor],
    writer: &mut BitWriter<W>,
) -> Result<u64, Why>
    requires { writer.old.mark.unread ≡ 0 }
{
    let len = audio.len();
    if len == 0 || len > 16 {
        return Err(Why::BlockSize);
    }
    let profile = audio.profile();
    if !LinearPredictor::are_within(predictors, greatest_order(profile, audio.rate())) {
        return Err(Why::NotSubset);
    }
    let mut buffers = EncodeBuffers::new_in(alloc, profile, 16)?;
    let bytes = encode_frame_with(audio, 0..len, 0, predictors, &mut buffers, writer);
    drop(buffers);
    let bytes = bytes?;
    writer.finish()?;
    Ok(bytes)
}

/// The frame of two channels or one in a profile, each of the same 16 samples at 44100 Hz.
fn frame_of(
    alloc: Global,
    profile: Profile,
    channels: usize,
    predictors: &[LinearPredictor],
) -> Result<Vec<u8>, Fail> {
    let mut lists = Vec::new(alloc);
    for channel in 0..channels {
        let _channel = channel;
        lists.push(WAVE_SAMPLES.to_vec(alloc)?)?;
    }
    let audio = Audio::new_in(profile, 44100, 16, lists)?;
    let mut writer = BitWriter::new(Collected::new(alloc));
    let bytes = write_frame_of(alloc, &audio, predictors, &mut writer)?;
    let written = writer.into_target().into_bytes();
    if bytes != written.len() as u64 {
        return Err(Fail::new("another length"));
    }
    Ok(written)
}

/// Whether this is the frame of one channel.
fn is_frame(
    alloc: Global,
    profile: Profile,
    predictors: &[LinearPredictor],
    wanted: &[u8],
) -> Result<bool, Fail> {
    Ok(frame_of(alloc, profile, 1, predictors)?.as_slice() == wanted)
}

/// The byte of the frame of two channels that has the channel code and the depth, 255 if there is none.
fn code_byte(alloc: Global, predictors: &[LinearPredictor]) -> Result<u8, Fail> {
    let frame = frame_of(alloc, Profile::Subset, 2, predictors)?;
    Ok(frame.get(3).copied().unwrap_or(255))
}

/// A frame of the wave, which a predictor foretells. Without it the residual is written as it is: 9 bytes around 199
/// bits. Two channels that are the same are left and side, whose side is constant in 8 + 17 bits.
#[test]
fn writes_a_frame(rt: HostRuntime) -> Result<(), Fail> {
    frame_family_with_is_plain();
    let Some(predictor) = LinearPredictor::new(1, 0, &[-1]) else {
        assert!(rt; false);
        return Ok(());
    };
    let list = [predictor];
    let (subset, lax) = (Profile::Subset, Profile::Lax);
    let wanted = [
        0xFF, 0xF8, 0x69, 0x08, 0x00, 0x0F, 0x30, 0x40, 0x03, 0xE9, 0x00, 0x40, 0xF0, 0x00, 0xB5,
        0xAA,
    ];
    assert!(rt; is_frame(rt.alloc(), subset, &list, &wanted)?);
    assert!(rt; is_frame(rt.alloc(), lax, &list, &wanted)?);
    assert!(rt; frame_of(rt.alloc(), subset, 1, &[])?.len() == 34);
    assert!(rt; code_byte(rt.alloc(), &list)? == 0x88);
    Ok(())
}

#[test]
fn knows_the_greatest_order(rt: HostRuntime) {
    let (subset, lax) = (Profile::Subset, Profile::Lax);
    assert!(rt; greatest_order(subset, 1) == 12 && greatest_order(subset, 48000) == 12);
    assert!(rt; greatest_order(subset, 48001) == 32 && greatest_order(subset, 655350) == 32);
    assert!(rt; greatest_order(lax, 1) == 32 && greatest_order(lax, 1048575) == 32);
}
