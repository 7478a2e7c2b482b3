//! Streams whose frames are written by linear predictors that are handed in (RFC 9639, section 9.2.6). Their bytes were
//! put together apart from this project, and the reference decodes them.

use crate::lax_written::come_out;
use flac_bits::{Collected, Memory};
use flac_encoder::{OggEncoder, StreamEncoder, StreamFormat};
use flac_meta::BlockList;
use flac_native::{Decoder, LinearPredictor, Plan, Profile};
use flac_ogg::ogg_decoder;
use std::alloc::Global;
use std::mem::drop;
use std::test::Fail;
use test_calls::{list_of, no_comments, number_of, peaks_to_end, setup_number, wave};
use test_vectors::{
    WAVE, WAVE_PAGES, WAVE_PREDICTED, WAVE_PREDICTED_PAGES, WAVE_SAMPLES, WAVES_PUSHED,
    WAVES_PUSHED_PAGES,
};

/// Whether this stream comes of the wave by such a list, and these pages.
fn is_written(
    alloc: Global,
    profile: Profile,
    count: usize,
    order: usize,
    stream: &str,
    paged: &str,
) -> Result<bool, Fail> {
    let audio = wave(alloc, profile, 44100)?;
    let list = list_of(alloc, count, order)?;
    let len = list.len();
    let plan = Plan::new_in(audio.profile(), 16, &audio, 0)?.with_predictors(list)?;
    Ok(plan.predictors().len() == len && come_out(alloc, &plan, &audio, stream, paged)?)
}

/// 8 bits of a header, 16 of a warm-up sample, 10 of the predictor and 15 of a residual of zeros; without a predictor 8
/// bits, 6 of a residual without partitions, 9 of an escape and 16 numbers of 11 bits. A predictor of as many
/// coefficients as the block has samples is not tried.
#[test]
fn whole_streams(rt: HostRuntime) -> Result<(), Fail> {
    let alloc = rt.alloc();
    let (subset, lax) = (Profile::Subset, Profile::Lax);
    assert!(rt; is_written(alloc, subset, 1, 0, WAVE_PREDICTED, WAVE_PREDICTED_PAGES)?);
    assert!(rt; is_written(alloc, subset, 64, 0, WAVE_PREDICTED, WAVE_PREDICTED_PAGES)?);
    assert!(rt; is_written(alloc, lax, 1, 16, WAVE_PREDICTED, WAVE_PREDICTED_PAGES)?);
    assert!(rt; is_written(alloc, lax, 0, 16, WAVE, WAVE_PAGES)?);
    assert!(rt; is_written(alloc, subset, 0, 0, WAVE, WAVE_PAGES)?);
    Ok(())
}

/// The number of the fault for which a plan refuses such a list, 0 if it does not.
fn refused(
    alloc: Global,
    profile: Profile,
    rate: u32,
    count: usize,
    order: usize,
) -> Result<u8, Fail> {
    let audio = wave(alloc, profile, rate)?;
    let list = list_of(alloc, count, order)?;
    match Plan::new_in(audio.profile(), 16, &audio, 0)?.with_predictors(list) {
        Ok(_) => Ok(0),
        Err(fault) => Ok(fault.number()),
    }
}

/// Orders up to 12 in the streamable subset at 48000 Hz and less, else up to 32; and at most 64 predictors, which is
/// judged first.
#[test]
fn lists_of_plans(rt: HostRuntime) -> Result<(), Fail> {
    let (subset, lax) = (Profile::Subset, Profile::Lax);
    let rows = [
        (subset, 44100, 1, 12, 0),
        (subset, 48000, 0, 13, 51),
        (subset, 44100, 1, 16, 51),
        (subset, 48010, 0, 32, 0),
        (lax, 44100, 1, 16, 0),
        (lax, 44100, 63, 32, 0),
        (lax, 44100, 65, 0, 52),
        (subset, 44100, 65, 0, 52),
        (subset, 44100, 64, 16, 52),
    ];
    for (profile, rate, count, order, wanted) in rows {
        let found = refused(rt.alloc(), profile, rate, count, order)?;
        assert!(rt; found == wanted, "{rate} {count} {order}");
    }
    Ok(())
}

// ---- block by block

/// An encoder of either container.
trait Encoder {
    /// Sets predictors, and returns the number of the fault for which they are refused, 0 if they are not.
    fn set(&mut self, list: Vec<LinearPredictor>) -> u8;

    /// Pushes the wave, and returns the number of the fault, 0 if there is none.
    fn send(&mut self) -> u8;
}

impl Encoder for StreamEncoder<Collected> {
    fn set(&mut self, list: Vec<LinearPredictor>) -> u8 {
        setup_number(self.set_predictors(list))
    }

    fn send(&mut self) -> u8 {
        number_of(self.push(&[WAVE_SAMPLES.as_slice()]))
    }
}

impl Encoder for OggEncoder<Collected> {
    fn set(&mut self, list: Vec<LinearPredictor>) -> u8 {
        setup_number(self.set_predictors(list))
    }

    fn send(&mut self) -> u8 {
        number_of(self.push(&[WAVE_SAMPLES.as_slice()]))
    }
}

/// Lists that are set one after another: one predictor, one of order 13, 65, and none.
#[derive(Drop)]
struct Lists {
    one: Vec<LinearPredictor>,
    high: Vec<LinearPredictor>,
    many: Vec<LinearPredictor>,
    none: Vec<LinearPredictor>,
}

/// Those lists.
fn lists_to_set(alloc: Global) -> Result<Lists, Fail> {
    Ok(Lists {
        one: list_of(alloc, 1, 0)?,
        high: list_of(alloc, 0, 13)?,
        many: list_of(alloc, 65, 0)?,
        none: Vec::new(alloc),
    })
}

/// Pushes the wave five times, and sets one of these lists after each but the last. What is refused changes nothing.
fn push_waves<E: Encoder>(encoder: &mut E, lists: Lists) -> [u8; 9] {
    let Lists {
        one,
        high,
        many,
        none,
    } = lists;
    [
        encoder.send(),
        encoder.set(one),
        encoder.send(),
        encoder.set(high),
        encoder.send(),
        encoder.set(many),
        encoder.send(),
        encoder.set(none),
        encoder.send(),
    ]
}

/// What these calls return.
const ANSWERS: [u8; 9] = [0, 0, 0, 51, 0, 52, 0, 0, 0];

/// The number of the fault for which an encoder of a profile and a rate refuses such a list, 0 if it does not.
fn refused_list(
    alloc: Global,
    profile: Profile,
    rate: u32,
    count: usize,
    order: usize,
) -> Result<u8, Fail> {
    let format = StreamFormat {
        profile,
        rate,
        bits: 16,
        channels: 1,
        block_size: 16,
    };
    let list = list_of(alloc, count, order)?;
    let blocks = BlockList::new(Vec::new(alloc))?;
    let made = StreamEncoder::new_in(alloc, &format, &blocks, Collected::new(alloc));
    drop(blocks);
    let mut encoder = made?;
    let number = encoder.set(list);
    drop(encoder);
    Ok(number)
}

/// The same limits as of plans.
#[test]
fn lists_of_encoders(rt: HostRuntime) -> Result<(), Fail> {
    let (subset, lax) = (Profile::Subset, Profile::Lax);
    let rows = [
        (subset, 44100, 63, 12, 0),
        (subset, 44100, 0, 16, 51),
        (subset, 96000, 0, 32, 0),
        (lax, 44100, 63, 32, 0),
        (lax, 44100, 64, 32, 52),
    ];
    for (profile, rate, count, order, wanted) in rows {
        let found = refused_list(rt.alloc(), profile, rate, count, order)?;
        assert!(rt; found == wanted, "{rate} {count} {order}");
    }
    Ok(())
}

/// What a native encoder writes.
fn pushed(alloc: Global) -> Result<([u8; 9], Collected), Fail> {
    let lists = lists_to_set(alloc)?;
    let blocks = BlockList::new(Vec::new(alloc))?;
    let made = StreamEncoder::new(alloc, 44100, 16, 1, 16, &blocks, Collected::new(alloc));
    drop(blocks);
    let mut encoder = made?;
    let answers = push_waves(&mut encoder, lists);
    Ok((answers, encoder.finish()?))
}

/// What an Ogg encoder writes.
fn pushed_pages(alloc: Global) -> Result<([u8; 9], Collected), Fail> {
    let lists = lists_to_set(alloc)?;
    let blocks = no_comments(alloc)?;
    let made = OggEncoder::new(alloc, 1, 44100, 16, 1, 16, &blocks, Collected::new(alloc));
    drop(blocks);
    let mut encoder = made?;
    let answers = push_waves(&mut encoder, lists);
    Ok((answers, encoder.finish()?))
}

#[test]
fn block_by_block(rt: HostRuntime) -> Result<(), Fail> {
    let (answers, target) = pushed(rt.alloc())?;
    let wanted = hex::decode(rt.alloc(), WAVES_PUSHED)?;
    assert!(rt; answers == ANSWERS);
    assert!(rt; target.bytes() == wanted.as_slice());
    let mut decoder = Decoder::new(rt.alloc(), Memory::new(&wanted), Profile::Subset);
    let found = peaks_to_end(&mut decoder);
    drop(decoder);
    assert!(rt; found == Some((1001, 0, 0)));
    Ok(())
}

#[test]
fn block_by_block_in_ogg(rt: HostRuntime) -> Result<(), Fail> {
    let (answers, target) = pushed_pages(rt.alloc())?;
    let wanted = hex::decode(rt.alloc(), WAVES_PUSHED_PAGES)?;
    assert!(rt; answers == ANSWERS);
    assert!(rt; target.bytes() == wanted.as_slice());
    let mut decoder = ogg_decoder(rt.alloc(), Memory::new(&wanted), Profile::Subset)?;
    let found = peaks_to_end(&mut decoder);
    drop(decoder);
    assert!(rt; found == Some((1001, 0, 0)));
    Ok(())
}
