//! Headers from outside, worked by hand from RFC 9639, section 9.1.

use flac_bits::{BitReader, BitWriter, Collected, Memory, Why};
use flac_header::{
    BlockingStrategy, ChannelAssignment, FrameHeader, Profile, codes_are_inverse, depth_code_in,
    headers_are_spelled, rate_code_in, read_header, subset_allows, write_header,
};
use std::alloc::Global;
use std::test::Fail;
use test_vectors::bytes_of;

/// Why bytes are refused as a header.
const REFUSED: &str = "fff86908fe | BadNumber
fff8790800ffff | ReservedCode
fff86908000f31 | HeaderCheck
fffa | BadSync";

/// Block sizes, rates and channel codes, and the headers that are chosen for them in frame 0 of 16 bits.
const CHOSEN: &str = "16 44100 0 | fff86908000f30
16 65537 0 |
16 44100 11 |
16 7000 0 | fff86c08000f0768
16 11025 0 | fff86d08000f2b1113
16 384000 0 | fff86e08000f9600b9
4096 44100 0 | fff8c9080095
4608 44100 0 | fff85908003c
1000 44100 0 | fff879080003e7e5
192 44100 0 | fff8190800ba
576 44100 0 | fff82908005b
1152 44100 0 | fff8390800f9
2304 44100 0 | fff84908009e
256 44100 0 | fff889080013
512 44100 0 | fff8990800b1
1024 44100 0 | fff8a9080050
2048 44100 0 | fff8b90800f2
8192 96000 0 | fff8db0800e1
16384 96000 0 | fff8eb080000
32768 96000 0 | fff8fb0800a2
16 88200 0 | fff86108000f80
16 176400 0 | fff86208000fba
16 192000 0 | fff86308000fac
16 8000 0 | fff86408000fce
16 16000 0 | fff86508000fd8
16 22050 0 | fff86608000fe2
16 24000 0 | fff86708000ff4
16 32000 0 | fff86808000f26
16 48000 0 | fff86a08000f0a
16 96000 0 | fff86b08000f1c";

fn read(bytes: &[u8]) -> Result<FrameHeader, Why> {
    read_header(&mut BitReader::new(Memory::new(bytes)))
}

/// The bytes of a header.
fn written(alloc: Global, header: &FrameHeader) -> Result<Vec<u8>, Why> {
    let mut writer = BitWriter::new(Collected::new(alloc));
    write_header(header, &mut writer)?;
    writer.finish()?;
    Ok(writer.into_target().into_bytes())
}

/// Whether a header is that of 4096 samples from number 4608 on, of one channel of 16 bits at 44100 Hz.
fn is_variable(header: &FrameHeader) -> bool {
    header.variable()
        && header.blocking_strategy() == BlockingStrategy::Variable
        && subset_allows(header)
        && (header.size(), header.rate(), header.channels()) == (4096, 44100, 1)
        && (header.channel_code(), header.depth(), header.number()) == (0, 16, 4608)
        && header.channel_assignment() == ChannelAssignment::Independent(1)
}

#[test]
fn variable_blocks(rt: HostRuntime) -> Result<(), Fail> {
    headers_are_spelled();
    codes_are_inverse();
    let bytes = [0xFF, 0xF9, 0xC9, 0x08, 0xE1, 0x88, 0x80, 0xBB];
    let header = read(&bytes)?;
    assert!(rt; is_variable(&header));
    let again = written(rt.alloc(), &header)?;
    assert!(rt; again.as_slice() == bytes.as_slice());
    Ok(())
}

/// Whether a header states rate and depth.
fn states(bytes: &[u8]) -> Result<(bool, bool), Why> {
    let header = read(bytes)?;
    Ok((header.states_rate(), header.states_depth()))
}

#[test]
fn rate_and_depth_left_out(rt: HostRuntime) -> Result<(), Fail> {
    let neither = [0xFF, 0xF8, 0x60, 0x00, 0x00, 0x0F, 0xC7];
    let both = [0xFF, 0xF8, 0x69, 0x08, 0x00, 0x0F, 0x30];
    let rate = [0xFF, 0xF8, 0x69, 0x00, 0x00, 0x0F, 0x61];
    let field_of_0 = [0xFF, 0xF8, 0x6C, 0x08, 0x00, 0x0F, 0x00, 0x7D];
    assert!(rt; states(&neither) == Ok((false, false)));
    assert!(rt; states(&both) == Ok((true, true)));
    assert!(rt; states(&rate) == Ok((true, false)));
    assert!(rt; states(&field_of_0) == Ok((true, true)));
    Ok(())
}

/// Why bytes are refused, in text.
fn refusal(alloc: Global, words: &str) -> Result<String, Fail> {
    match read(&bytes_of(alloc, words)?) {
        Ok(_) => Ok(String::new(alloc)),
        Err(why) => Ok(format!(in alloc; "{why:?}")?),
    }
}

/// Whether the bytes of a row are refused for its reason.
fn is_refused(alloc: Global, row: &str) -> Result<bool, Fail> {
    let (words, wanted) = row.split_once(" | ").unwrap_or((row, ""));
    let found = refusal(alloc, words)?;
    Ok(found.as_str() == wanted)
}

#[test]
fn refused(rt: HostRuntime) -> Result<(), Fail> {
    for row in REFUSED.lines() {
        assert!(rt; is_refused(rt.alloc(), row)?, "{row}");
    }
    Ok(())
}

/// The header that is chosen for a block size, a rate and a channel code.
fn chosen(words: &str) -> Result<Option<FrameHeader>, Fail> {
    let mut numbers = words.split_whitespace();
    let size = numbers.next().unwrap_or("").parse::<u32>()?;
    let rate = numbers.next().unwrap_or("").parse::<u32>()?;
    let code = numbers.next().unwrap_or("").parse::<u8>()?;
    Ok(FrameHeader::chosen(size, rate, code, 16, 0))
}

/// The bytes of that header; none if there is no such header.
fn chosen_bytes(alloc: Global, words: &str) -> Result<Vec<u8>, Fail> {
    match chosen(words)? {
        Some(header) => Ok(written(alloc, &header)?),
        None => Ok(Vec::new(alloc)),
    }
}

/// Whether the header of a row is chosen and written, and is read again.
fn is_chosen(alloc: Global, row: &str) -> Result<bool, Fail> {
    let (words, wanted) = row.split_once(" |").unwrap_or((row, ""));
    let wanted = bytes_of(alloc, wanted)?;
    let found = chosen_bytes(alloc, words)?;
    Ok(found.as_slice() == wanted.as_slice() && chosen(words)? == read(&wanted).ok())
}

#[test]
fn codes_chosen(rt: HostRuntime) -> Result<(), Fail> {
    for row in CHOSEN.lines() {
        assert!(rt; is_chosen(rt.alloc(), row)?, "{row}");
    }
    Ok(())
}

/// Block size, rate, channel code, depth and frame number; the header that is chosen for them in the streamable subset;
/// and the one that is chosen without its limits, which leaves a rate or a depth without a code to STREAMINFO.
const IN_PROFILES: &str = "16 44100 0 16 0 | fff86908000f30 | fff86908000f30
16 655350 0 32 0 | fff86e0e000fffff49 | fff86e0e000fffff49
16 65537 0 5 0 |  | fff86000000fc7
16 65537 0 16 0 |  | fff86008000f96
16 44100 0 5 0 |  | fff86900000f61
16 655360 0 24 0 |  | fff8600c000f3d
16 1048575 0 4 0 |  | fff86000000fc7
65535 65537 7 5 2147483647 |  | fff87070fdbfbfbfbfbffffeac
16 0 0 16 0 |  |
16 1048576 0 16 0 |  |
16 44100 0 3 0 |  |
16 44100 0 33 0 |  |
65536 65537 0 5 0 |  |
16 65537 11 5 0 |  |
16 65537 0 5 2147483648 |  |";

/// The number of some words that has this place, 0 if it is no number of 32 bits.
fn number_at(words: &str, place: usize) -> u32 {
    let word = words.split_whitespace().nth(place).unwrap_or("");
    word.parse::<u32>().unwrap_or(0)
}

/// The header that is chosen in a profile for the numbers of a row.
fn chosen_in(profile: Profile, words: &str) -> Option<FrameHeader> {
    let (size, rate) = (number_at(words, 0), number_at(words, 1));
    let (code, depth) = (number_at(words, 2).min(255) as u8, number_at(words, 3));
    FrameHeader::chosen_in(
        profile,
        size,
        rate,
        code,
        depth,
        u64::from(number_at(words, 4)),
    )
}

/// Whether these bytes are that header, and as many as it says; none if there is no such header.
fn is_chosen_in(alloc: Global, profile: Profile, words: &str, wanted: &str) -> Result<bool, Fail> {
    let wanted = hex::decode(alloc, wanted)?;
    let Some(header) = chosen_in(profile, words) else {
        return Ok(wanted.is_empty());
    };
    let found = written(alloc, &header)?;
    Ok(found.as_slice() == wanted.as_slice() && header.bytes() == wanted.len() as u64)
}

/// Whether the headers of a row are chosen.
fn are_chosen(alloc: Global, row: &str) -> Result<bool, Fail> {
    let (words, rest) = row.split_once(" | ").unwrap_or((row, ""));
    let (subset, lax) = rest.split_once(" |").unwrap_or((rest, ""));
    let first = is_chosen_in(alloc, Profile::Subset, words, subset)?;
    Ok(first && is_chosen_in(alloc, Profile::Lax, words, lax.trim())?)
}

#[test]
fn chosen_in_profiles(rt: HostRuntime) -> Result<(), Fail> {
    for row in IN_PROFILES.lines() {
        assert!(rt; are_chosen(rt.alloc(), row)?, "{row}");
    }
    Ok(())
}

/// Codes of rates and of depths in both profiles: 0 leaves them to STREAMINFO.
#[test]
fn codes_in_profiles(rt: HostRuntime) {
    assert!(rt; rate_code_in(Profile::Subset, 65537).is_none());
    assert!(rt; rate_code_in(Profile::Lax, 65537) == Some(0));
    assert!(rt; rate_code_in(Profile::Lax, 1048575) == Some(0));
    assert!(rt; rate_code_in(Profile::Lax, 1048576).is_none());
    assert!(rt; rate_code_in(Profile::Lax, 0).is_none());
    assert!(rt; rate_code_in(Profile::Lax, 44100) == Some(9));
    assert!(rt; rate_code_in(Profile::Lax, 655350) == Some(14));
    assert!(rt; depth_code_in(Profile::Subset, 5).is_none());
    assert!(rt; depth_code_in(Profile::Lax, 3).is_none());
    assert!(rt; depth_code_in(Profile::Lax, 4) == Some(0));
    assert!(rt; depth_code_in(Profile::Lax, 5) == Some(0));
    assert!(rt; depth_code_in(Profile::Lax, 16) == Some(4));
    assert!(rt; depth_code_in(Profile::Lax, 31) == Some(0));
    assert!(rt; depth_code_in(Profile::Lax, 32) == Some(7));
    assert!(rt; depth_code_in(Profile::Lax, 33).is_none());
}

/// The code of the channel assignment of a code, and whether it is decorrelated stereo; nothing if the code has none.
fn assigned(code: u8) -> Option<(u8, bool)> {
    let assignment = ChannelAssignment::from_code(code)?;
    Some((assignment.code(), assignment.is_decorrelated()))
}

/// How the header that is chosen with a channel code says that the channels are stored.
fn stored(code: u8) -> Option<ChannelAssignment> {
    let header = FrameHeader::chosen(4096, 44100, code, 16, 0)?;
    Some(header.channel_assignment())
}

#[test]
fn channel_assignments(rt: HostRuntime) {
    for code in 0..11 {
        assert!(rt; assigned(code) == Some((code, code > 7)), "{code}");
        assert!(rt;
            stored(code) == ChannelAssignment::from_code(code),
            "{code}"
        );
    }
    assert!(rt; assigned(11).is_none());
    assert!(rt; stored(0) == Some(ChannelAssignment::Independent(1)));
    assert!(rt; stored(7) == Some(ChannelAssignment::Independent(8)));
    assert!(rt; stored(8) == Some(ChannelAssignment::LeftSide));
    assert!(rt; stored(9) == Some(ChannelAssignment::SideRight));
    assert!(rt; stored(10) == Some(ChannelAssignment::MidSide));
}

#[test]
fn greatest_blocks(rt: HostRuntime) {
    assert!(rt; Profile::Subset.greatest_block(48000) == 4608);
    assert!(rt; Profile::Subset.greatest_block(48001) == 16384);
    assert!(rt; Profile::Lax.greatest_block(48000) == 65535);
}

/// The largest block size of the profile at a rate is allowed, and 16; the next ones are not.
fn ends_at(profile: Profile, rate: u32, greatest: u32) -> bool {
    profile.allows_block(16, rate)
        && !profile.allows_block(15, rate)
        && profile.allows_block(greatest, rate)
        && !profile.allows_block(greatest + 1, rate)
}

#[test]
fn block_sizes_allowed(rt: HostRuntime) {
    assert!(rt; ends_at(Profile::Subset, 48000, 4608));
    assert!(rt; ends_at(Profile::Subset, 48001, 16384));
    assert!(rt; ends_at(Profile::Lax, 48000, 65535));
}
