//! Streams that are written: samples of RFC 9639, appendix D.1, no samples, and blocks of 16 samples whose shortest
//! subframe is known.

use flac_frame::Audio;
use flac_native::{BlockList, Collected, EncodeFault, Plan, Profile, StreamInfo, send_head};
use std::alloc::Global;
use std::mem::drop;
use std::process::Abort;
use std::test::Fail;
use test_calls::{encoded, no_comments};
use test_vectors::{
    EQUAL_8, EQUAL_24, EQUAL_32, NO_SAMPLES, ONE_SAMPLE, ONE_SAMPLE_COMMENTED, RISING, SILENT,
    channels_of, pair_of,
};

/// Encodes channels in blocks of `block` samples, and compares what is written.
fn writes_channels(
    rt: &impl Abort,
    alloc: Global,
    block: u32,
    bits: u32,
    channels: Vec<Vec<i32>>,
    wanted: &str,
) -> Result<(), Fail> {
    let audio = Audio::new(44100, bits, channels)?;
    let found = encoded(alloc, &audio, block, 0)?;
    let wanted = hex::decode(alloc, wanted)?;
    assert!(rt; found.as_slice() == wanted.as_slice());
    Ok(())
}

/// Encodes one channel in blocks of 16 samples, and compares what is written.
fn writes(
    rt: &impl Abort,
    alloc: Global,
    bits: u32,
    samples: Vec<i32>,
    wanted: &str,
) -> Result<(), Fail> {
    let channels = vec![in alloc; samples]?;
    writes_channels(rt, alloc, 16, bits, channels, wanted)
}

#[test]
fn least_subframes(rt: HostRuntime) -> Result<(), Fail> {
    let alloc = rt.alloc();
    writes(&rt, alloc, 16, (0..16).collect(alloc)?, RISING)?;
    writes(&rt, alloc, 16, vec![in alloc; 0; 16]?, SILENT)
}

#[test]
fn depths(rt: HostRuntime) -> Result<(), Fail> {
    let alloc = rt.alloc();
    writes(&rt, alloc, 8, vec![in alloc; -127; 16]?, EQUAL_8)?;
    writes(&rt, alloc, 24, vec![in alloc; 8388607; 16]?, EQUAL_24)?;
    writes(&rt, alloc, 32, vec![in alloc; i32::MAX; 16]?, EQUAL_32)
}

#[test]
fn one_sample(rt: HostRuntime) -> Result<(), Fail> {
    let channels = channels_of(rt.alloc(), ";25588;10416")?;
    writes_channels(&rt, rt.alloc(), 4096, 16, channels, ONE_SAMPLE)
}

#[test]
fn no_samples(rt: HostRuntime) -> Result<(), Fail> {
    let channels = channels_of(rt.alloc(), ";;")?;
    writes_channels(&rt, rt.alloc(), 4096, 16, channels, NO_SAMPLES)
}

/// The samples of some channels in a profile.
fn audio_in(alloc: Global, profile: Profile, words: &str) -> Result<Audio, Fail> {
    let channels = channels_of(alloc, words)?;
    Ok(Audio::new_in(profile, 44100, 16, channels)?)
}

/// Whether a plan that is made for the samples of these channels fits them, and whether it fits the same in another
/// profile.
fn fits(alloc: Global, words: &str) -> Result<(bool, bool), Fail> {
    let audio = audio_in(alloc, Profile::Subset, words)?;
    let other = audio_in(alloc, Profile::Lax, words)?;
    let plan = Plan::new(4096, &audio, 0)?;
    Ok((plan.fits(&audio), plan.fits(&other)))
}

/// A plan fits the samples that it was made for.
#[test]
fn plans_fit(rt: HostRuntime) -> Result<(), Fail> {
    assert!(rt; fits(rt.alloc(), ";25588;10416")? == (true, false));
    assert!(rt; fits(rt.alloc(), ";;")? == (true, false));
    Ok(())
}

/// What comes of the subset's plan for one sample without the subset's limits: the number of the fault, and whether the
/// plan is one of the subset that does not fit the sample.
fn in_the_subset(alloc: Global, format: &str) -> Result<(u8, bool), Fail> {
    let (rate, bits) = pair_of(format)?;
    let audio = Audio::new_in(Profile::Lax, rate, bits, channels_of(alloc, ";0")?)?;
    match Plan::new(16, &audio, 0) {
        Ok(plan) => Ok((0, plan.profile() == Profile::Subset && !plan.fits(&audio))),
        Err(fault) => Ok((fault.number(), false)),
    }
}

/// A plan without a named profile is one of the subset, whose frame headers state neither that rate nor that depth (RFC
/// 9639, sections 7 and 9.1).
#[test]
fn plans_of_the_subset(rt: HostRuntime) -> Result<(), Fail> {
    assert!(rt; in_the_subset(rt.alloc(), "44100 16")? == (0, true));
    assert!(rt; in_the_subset(rt.alloc(), "65537 16")? == (40, false));
    assert!(rt; in_the_subset(rt.alloc(), "44100 5")? == (41, false));
    Ok(())
}

/// The number of the fault for which blocks of `block` samples are refused at a rate, 0 if they are not.
fn block_refused(alloc: Global, profile: Profile, rate: u32, block: u32) -> Result<u8, Fail> {
    let audio = Audio::new_in(profile, rate, 16, channels_of(alloc, ";0")?)?;
    match Plan::new_in(audio.profile(), block, &audio, 0) {
        Ok(plan) => Ok(if plan.block_size() == block { 0 } else { 255 }),
        Err(fault) => Ok(fault.number()),
    }
}

/// The limits of a block in both profiles (RFC 9639, sections 7 and 8.2).
#[test]
fn blocks_of_plans(rt: HostRuntime) -> Result<(), Fail> {
    let (subset, lax) = (Profile::Subset, Profile::Lax);
    let rows = [
        (subset, 44100, 4608, 0),
        (subset, 44100, 8192, 46),
        (subset, 96000, 16384, 0),
        (subset, 96000, 16385, 46),
        (lax, 44100, 16, 0),
        (lax, 44100, 15, 46),
        (lax, 44100, 8192, 0),
        (lax, 44100, 65535, 0),
        (lax, 44100, 65536, 46),
    ];
    for (profile, rate, block, wanted) in rows {
        let found = block_refused(rt.alloc(), profile, rate, block)?;
        assert!(rt; found == wanted, "{rate} {block}");
    }
    Ok(())
}

/// The number of the fault for which a point for each of n blocks of 16 samples is refused, 0 if it is not.
fn points_refused(alloc: Global, blocks: usize) -> Result<u8, Fail> {
    let samples = vec![in alloc; 0; blocks.saturating_mul(16)]?;
    let audio = Audio::new(44100, 16, vec![in alloc; samples]?)?;
    match Plan::new(16, &audio, 1) {
        Ok(_) => Ok(0),
        Err(fault) => Ok(fault.number()),
    }
}

/// A block of 2^24 - 1 bytes holds 932067 points of 18 bytes (RFC 9639, sections 8.1 and 8.5).
#[test]
fn points_of_plans(rt: HostRuntime) -> Result<(), Fail> {
    assert!(rt; points_refused(rt.alloc(), 932_067)? == 0);
    assert!(rt; points_refused(rt.alloc(), 932_068)? == 47);
    Ok(())
}

/// What comes of a plan in a profile for one sample of another, of a rate and a depth: the number of the fault, and
/// whether the plan fits the sample.
fn named(alloc: Global, profile: Profile, own: Profile, format: &str) -> Result<(u8, bool), Fail> {
    let (rate, bits) = pair_of(format)?;
    let audio = Audio::new_in(own, rate, bits, channels_of(alloc, ";0")?)?;
    match Plan::new_in(profile, 16, &audio, 0) {
        Ok(plan) => Ok((0, plan.profile() == profile && plan.fits(&audio))),
        Err(fault) => Ok((fault.number(), false)),
    }
}

/// A plan in a profile that is named fits samples of that profile only. Samples that it does not allow have none.
#[test]
fn plans_in_profiles(rt: HostRuntime) -> Result<(), Fail> {
    let (subset, lax) = (Profile::Subset, Profile::Lax);
    let rows = [
        (subset, subset, "44100 16", 0, true),
        (lax, lax, "65537 5", 0, true),
        (lax, subset, "44100 16", 0, false),
        (subset, lax, "44100 16", 0, false),
        (subset, lax, "65537 5", 40, false),
        (subset, lax, "44100 5", 41, false),
    ];
    for (profile, own, format, number, fits) in rows {
        let found = named(rt.alloc(), profile, own, format)?;
        assert!(rt; found == (number, fits), "{format}");
    }
    Ok(())
}

/// The digest of the sample of the example: the MD5 of F4 63 B0 28.
const DIGEST: [u8; 16] = [
    0x3E, 0x84, 0xB4, 0x18, 0x07, 0xDC, 0x69, 0x03, 0x07, 0x58, 0x6A, 0x3D, 0xAD, 0x1A, 0x2E, 0x0F,
];

/// Whether the marker, STREAMINFO of that sample and these blocks are sent as these bytes.
fn head_is(alloc: Global, list: BlockList, wanted: &[u8]) -> Result<bool, Fail> {
    let info = StreamInfo::new(4096, 4096, 15, 15, 44100, 2, 16, 1, DIGEST)?;
    let mut sent = Collected::new(alloc);
    let outcome = send_head(info, &list, Vec::new(alloc), &mut sent);
    drop(list);
    Ok(outcome == Ok(()) && sent.bytes() == wanted)
}

/// What comes before the frame of the sample, without and with a block after STREAMINFO.
#[test]
fn heads(rt: HostRuntime) -> Result<(), Fail> {
    let alloc = rt.alloc();
    let alone = hex::decode(alloc, ONE_SAMPLE)?;
    let commented = hex::decode(alloc, ONE_SAMPLE_COMMENTED)?;
    let none = BlockList::new(Vec::new(alloc))?;
    assert!(rt; head_is(alloc, none, alone.get(..42).unwrap_or(&[]))?);
    let list = no_comments(alloc)?;
    assert!(rt; head_is(alloc, list, commented.get(..54).unwrap_or(&[]))?);
    Ok(())
}

/// A target in memory fails only when out of memory. What is no fault of the target stays.
#[test]
fn faults_in_memory(rt: HostRuntime) {
    assert!(rt; EncodeFault::Write.in_memory() == EncodeFault::Memory);
    assert!(rt; EncodeFault::Memory.in_memory() == EncodeFault::Memory);
    assert!(rt; EncodeFault::Spent.in_memory() == EncodeFault::Spent);
}
