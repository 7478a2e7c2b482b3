//! Two streams that are compared. The reference encoder, version 1.4.2, wrote them of made-up samples, in blocks of several
//! sizes, at several levels.

use flac_compare::{Difference, Unread, compare, compare_streams};
use flac_reader::{Fault, Keep, Memory, Place, Profile, Why, open_native};
use std::alloc::Global;
use std::process::Abort;
use std::test::Fail;

/// 40 samples of two channels, 16 bits, in blocks of 16, level 0.
const SIXTEENS: &str =
    "664c6143000000220010001000002a0000470ac442f000000028103525063fbef0539af3fe154003f30484000028200000007265666572656e6365206c6962464c414320312e342e322032\
    3032323130323200000000fff86918000f9212ffd902d14892ef4ce16e3c4530349fb4146080eb544b821481bffa8c04916aacc32478a2ea61e6e2e34f9605c9d89349d595488bfde69972\
    d967575cac6b7bfff86918010f8712086b02f543b312fded80db14cf6917e0253b3b15e80482f9526d35b80aacfe2d1301bad517537ef6e9ac66e545be735d379d1ad53339677f1170448d\
    88d42bfff86918020780120fce02fe5bf201d96922d6043a22800a6edb9720178ae8740f22659e42a98c68c601";

/// The same samples in blocks of 24, level 8.
const TWENTY_FOURS: &str =
    "664c614300000022001800180000470000640ac442f000000028103525063fbef0539af3fe154003f30484000028200000007265666572656e6365206c6962464c414320312e342e322032\
    3032323130323200000000fff869180017da12ffd902d14892ef4ce16e3c4530349fb4146080eb544b821481bffa8caccd50ecc4bf7b6036c533da4404916aacc32478a2ea61e6e2e34f96\
    05c9d89349d595488bfde69972d967575cad567f168980dd6a8ba9bf7b74d63372a29b86fff86918010f87120b5502d29d9d8af402417ca9369adca7ef96fc80765a48b5810e88a0026f9c\
    d74de746b54cce59dfc45c1123629bb6e5c805e2ba1d03c8996790aa631a9f5c";

/// The same samples in Ogg, in one block.
const IN_OGG: &str =
    "4f676753000200000000000000000700000000000000616b44eb01337f464c414301000001664c6143000000220028002800009f00009f0ac442f000000028103525063fbef0539af3fe15\
    4003f3044f6767530000000000000000000007000000010000007679f160012c84000028200000007265666572656e6365206c6962464c414320312e342e32203230323231303232000000\
    004f676753000428000000000000000700000002000000b5009341019ffff8691800274a12ffd902d14892ef4ce16e3c4530349fb4146080eb544b821481bffa8caccd50ecc4bf7b6036c5\
    33da45f8094ecec57a0120be549b4d6e53f7cb7e403b2d245ac087445001245aab30c91e28ba9879b8b8d3e581727624d275655222ff79a65cb659d5d72b559fc5a260375aa2ea6fdedd35\
    8cdca8b7ce6ba6f3a35aa6672cefe22e0891b14ddb72e402f15d0e81e44cb3c855318d00fca1";

/// The same, but sample 21 of channel 1 is greater by 1.
const OTHER_SAMPLE: &str =
    "664c614300000022001800180000470000640ac442f000000028a473f161453f48c1fbf5933ba551b05f84000028200000007265666572656e6365206c6962464c414320312e342e322032\
    3032323130323200000000fff869180017da12ffd902d14892ef4ce16e3c4530349fb4146080eb544b821481bffa8caccd50ecc4bf7b6036c533da4404916aacc32478a2ea61e6e2e34f96\
    05c9d89349d595488bfde69972d967575cad567f168980dd6a8ba9bf7b76d63372a21b75fff86918010f87120b5502d29d9d8af402417ca9369adca7ef96fc80765a48b5810e88a0026f9c\
    d74de746b54cce59dfc45c1123629bb6e5c805e2ba1d03c8996790aa631a9f5c";

/// The first 30 of these samples, in one block.
const SHORTER: &str =
    "664c614300000022001e001e00007a00007a0ac442f00000001ebfa7af7f707138dc977e6d78de260dbb84000028200000007265666572656e6365206c6962464c414320312e342e322032\
    3032323130323200000000fff86918001dec12ffd902d14892ef4ce16e3c4530349fb4146080eb544b821481bffa8caccd50ecc4bf7b6036c533da45f8094ecec57a0120be5404916aacc3\
    2478a2ea61e6e2e34f9605c9d89349d595488bfde69972d967575cad567f168980dd6a8ba9bf7b74d63372a2df39ae9bce8d6a999cb3bf88b059";

/// The same samples at 48000 Hz.
const OTHER_RATE: &str =
    "664c6143000000220010001000002a0000470bb802f000000028103525063fbef0539af3fe154003f30484000028200000007265666572656e6365206c6962464c414320312e342e322032\
    3032323130323200000000fff86a18000fa812ffd902d14892ef4ce16e3c4530349fb4146080eb544b821481bffa8c04916aacc32478a2ea61e6e2e34f9605c9d89349d595488bfde69972\
    d967575cac6d63fff86a18010fbd12086b02f543b312fded80db14cf6917e0253b3b15e80482f9526d35b80aacfe2d1301bad517537ef6e9ac66e545be735d379d1ad53339677f1170448d\
    88d233fff86a180207ba120fce02fe5bf201d96922d6043a22800a6edb9720178ae8740f22659e42a98c682e04";

/// The samples of channel 0 alone.
const ONE_CHANNEL: &str =
    "664c614300000022001000100000190000260ac440f0000000280551bd49049c9c77461514378dd640d084000028200000007265666572656e6365206c6962464c414320312e342e322032\
    3032323130323200000000fff86908000f3012ffd902d14892ef4ce16e3c4530349fb4146080eb544b821481bffa8cf04bfff86908010f2512086b02f543b312fded80db14cf6917e0253b\
    3b15e80482f9526d35b8b1e0fff86908020722120fce02fe5bf201d96922d6043a22802de4";

/// The same samples of 24 bits.
const OTHER_BITS: &str =
    "664c6143000000220010001000002d00004b0ac4437000000028a44fa22c6a2ebfebf89c0799afe49e9984000028200000007265666572656e6365206c6962464c414320312e342e322032\
    3032323130323200000000fff8691c000f3912ffffd902d14892ef4ce16e3c4530349fb4146080eb544b821481bffa8c2083d22d4acc26dc3a8bab8799c5c4b06985c8a76d5b15f55ba2ff\
    2659d1a4e98a951a98ef34fff8691c010f2c1200086b02f543b312fded80db14cf6917e0253b3b15e80482f9526d35b84107aa605d2effe469575d6414245b58c91abadf38d165b1734ab3\
    f1a6e03bae08b1b100f752fff8691c02072b12000fce02fe5bf201d96922d6043a22804107b224ed1be2f11178b0f20cd316f55b18d0e7fa";

/// What a comparison of two streams returns.
fn compared(
    alloc: Global,
    first: &str,
    second: &str,
) -> Result<Result<Option<Difference>, Unread>, Fail> {
    let first = hex::decode(alloc, first)?;
    let second = hex::decode(alloc, second)?;
    let mut first = Memory::new(&first);
    let mut second = Memory::new(&second);
    Ok(compare_streams(alloc, &mut first, &mut second, Profile::Lax))
}

/// Compares two streams in both orders.
fn compares(
    rt: &impl Abort,
    alloc: Global,
    streams: (&str, &str),
    there: Option<Difference>,
    back: Option<Difference>,
) -> Result<(), Fail> {
    let (first, second) = streams;
    let found = compared(alloc, first, second)?;
    assert!(rt; found == Ok(there));
    let found = compared(alloc, second, first)?;
    assert!(rt; found == Ok(back));
    Ok(())
}

#[test]
fn the_same_samples_in_other_blocks(rt: HostRuntime) -> Result<(), Fail> {
    compares(&rt, rt.alloc(), (SIXTEENS, SIXTEENS), None, None)?;
    compares(&rt, rt.alloc(), (SIXTEENS, TWENTY_FOURS), None, None)?;
    compares(&rt, rt.alloc(), (IN_OGG, TWENTY_FOURS), None, None)?;
    compares(&rt, rt.alloc(), (IN_OGG, IN_OGG), None, None)
}

#[test]
fn a_sample_that_differs(rt: HostRuntime) -> Result<(), Fail> {
    let found = Some(Difference::Sample(21, 1));
    compares(&rt, rt.alloc(), (SIXTEENS, OTHER_SAMPLE), found, found)?;
    compares(&rt, rt.alloc(), (OTHER_SAMPLE, IN_OGG), found, found)?;
    compares(&rt, rt.alloc(), (SHORTER, OTHER_SAMPLE), found, found)
}

#[test]
fn fewer_samples(rt: HostRuntime) -> Result<(), Fail> {
    let there = Some(Difference::Length(30, 40));
    let back = Some(Difference::Length(40, 30));
    compares(&rt, rt.alloc(), (SHORTER, SIXTEENS), there, back)?;
    compares(&rt, rt.alloc(), (SHORTER, IN_OGG), there, back)
}

#[test]
fn another_format(rt: HostRuntime) -> Result<(), Fail> {
    let there = Some(Difference::Rate(44100, 48000));
    let back = Some(Difference::Rate(48000, 44100));
    compares(&rt, rt.alloc(), (SIXTEENS, OTHER_RATE), there, back)?;
    let there = Some(Difference::Channels(2, 1));
    let back = Some(Difference::Channels(1, 2));
    compares(&rt, rt.alloc(), (IN_OGG, ONE_CHANNEL), there, back)?;
    let there = Some(Difference::Depth(16, 24));
    let back = Some(Difference::Depth(24, 16));
    compares(&rt, rt.alloc(), (TWENTY_FOURS, OTHER_BITS), there, back)
}

/// What a comparison returns whose first stream was cut off by this many bytes.
fn cut(
    alloc: Global,
    stream: &str,
    fewer: usize,
    second: &str,
) -> Result<Result<Option<Difference>, Unread>, Fail> {
    let bytes = hex::decode(alloc, stream)?;
    let second = hex::decode(alloc, second)?;
    let mut first = Memory::new(
        bytes
            .get(..bytes.len().saturating_sub(fewer))
            .unwrap_or(&[]),
    );
    let mut second = Memory::new(&second);
    Ok(compare_streams(alloc, &mut first, &mut second, Profile::Lax))
}

#[test]
fn a_stream_that_is_refused(rt: HostRuntime) -> Result<(), Fail> {
    let last = Fault {
        at: Place::Frame(2),
        why: Why::Truncated,
    };
    let found = cut(rt.alloc(), SIXTEENS, 1, TWENTY_FOURS)?;
    assert!(rt; found == Err(Unread::First(last)));
    // the difference comes before the refusal
    let found = cut(rt.alloc(), SIXTEENS, 1, OTHER_SAMPLE)?;
    assert!(rt; found == Ok(Some(Difference::Sample(21, 1))));
    // the refusal comes before the length
    let found = cut(rt.alloc(), SIXTEENS, 1, SHORTER)?;
    assert!(rt; found == Err(Unread::First(last)));
    let marker = Fault {
        at: Place::Marker,
        why: Why::BadMarker,
    };
    let found = compared(rt.alloc(), SIXTEENS, "00112233")?;
    assert!(rt; found == Err(Unread::Second(marker)));
    Ok(())
}

#[test]
fn readers_that_are_compared(rt: HostRuntime) -> Result<(), Fail> {
    let first = hex::decode(rt.alloc(), SIXTEENS)?;
    let second = hex::decode(rt.alloc(), TWENTY_FOURS)?;
    let mut first = open_native(rt.alloc(), Memory::new(&first), Profile::Lax, Keep::Tags)?;
    let mut second = open_native(rt.alloc(), Memory::new(&second), Profile::Lax, Keep::Tags)?;
    let found = compare(&mut first, &mut second);
    assert!(rt; found == Ok(None));
    // both are at their ends
    let found = compare(&mut first, &mut second);
    assert!(rt; found == Ok(None));
    Ok(())
}
