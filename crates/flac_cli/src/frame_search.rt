//! A search among the frames of a native stream for one that is not far before a sample.

ghost use Rattle.std.specs.Prelude.{◌≤◌, length};

use flac_bits::Why;
use flac_frame::FrameBuffers;
use flac_meta::StreamInfo;
use flac_native::Profile;
use flac_salvage::next_whole;
use std::alloc::Global;
use std::io::{Read, Seek, SeekFrom};

/// How many bytes are looked through at once: several frames of almost any stream.
const WINDOW: usize = 262_144;

/// How many bytes of false frames are looked at in one window, at most.
const BUDGET: u64 = 4_194_304;

/// What is looked for.
#[derive(Clone, Copy)]
pub(crate) struct Wanted<'a> {
    pub(crate) info: &'a StreamInfo,
    pub(crate) profile: Profile,
    /// The number of the sample.
    pub(crate) sample: u64,
}

/// Reads the bytes of a device from one of them on, as many as there are places or as it has, and returns how many:
/// none or some of them if it returns an error.
fn read_from<T: Read + Seek>(device: &mut T, at: u64, places: &mut [u8]) -> usize
    ensures { result ≤ length places.new }
{
    if device.seek(SeekFrom::Start(at)).is_err() {
        return 0;
    }
    let mut count = 0;
    'places: for _ in 0..places.len() {
        match device.read(&mut places[count..]) {
            Ok(0) => return count,
            Ok(more) => count += more,
            Err(_) => return count,
        }
    }
    count
}

impl Wanted<'_> {
    /// The offset of the first whole frame of these bytes, if it begins at or before the sample.
    ///
    /// # Errors
    /// Out of memory.
    fn offset_in(&self, alloc: Global, bytes: &[u8]) -> Result<Option<usize>, Why> {
        let (channels, block) = (self.info.channels(), self.info.greatest_block());
        let mut buffers = FrameBuffers::new(alloc, u32::from(channels), u32::from(block))?;
        let mut budget = BUDGET;
        let found = next_whole(bytes, 0, self.info, self.profile, &mut buffers, &mut budget);
        let first = buffers.view().first_sample(block);
        match found {
            Ok(Some((at, _))) if first <= self.sample => Ok(Some(at)),
            _ => Ok(None),
        }
    }

    /// Where a frame begins in a device, in bytes from its first, that begins at or before the sample, and not far
    /// before it: by halving what is between `start`, where the first frame begins, and the end. The frames are taken
    /// as numbered in order. `start` if there is no such frame, or the device returns an error.
    ///
    /// # Errors
    /// Out of memory.
    pub(crate) fn offset_before<T: Read + Seek>(
        &self,
        alloc: Global,
        device: &mut T,
        start: u64,
    ) -> Result<u64, Why> {
        let mut window = vec![in alloc; 0u8; WINDOW]?;
        let mut low = start;
        let mut high = device.seek(SeekFrom::End(0)).unwrap_or(start);
        for _ in 0..64 {
            if high.saturating_sub(low) <= WINDOW as u64 {
                return Ok(low);
            }
            let middle = low.midpoint(high);
            let count = read_from(device, middle, &mut window);
            match self.offset_in(alloc, &window[..count])? {
                Some(at) => low = middle.saturating_add(at as u64),
                None => high = middle,
            }
        }
        Ok(low)
    }
}
