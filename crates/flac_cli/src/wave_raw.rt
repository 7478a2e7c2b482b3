//! The samples of a WAV file as raw samples, as they are read from a source.

ghost use Rattle.std.specs.Prelude.{◌≡◌, ◌<◌, ◌≤◌, ◌+◌, ◌*◌, ◌++◌, ◌&&◌, [], not, true, false, length, take, IfOk, IfErr, OnOk, OnErr};
ghost use Rattle.flac_bits.specs.State.{Rises, the_end};
ghost use Rattle.flac_bits.specs.declared.why.Why.TheVariants as why;
ghost use Rattle.flac_wave.specs.Calls.{Gave, NoneRaised};
ghost use Rattle.flac_wave.specs.Parts.{one_if};
ghost use Rattle.flac_wave.specs.Shift.{lowered_number};
ghost use Rattle.flac_cli.specs.Waves.{wave_samples};
ghost use Rattle.flac_cli.specs.inner.WaveRaw.{Lowers, low_of, held_in};

use crate::decode_wave::turn;
use byteorder::{ByteOrder, LittleEndian};
use flac_bits::{Source, Why};
use std::alloc::Global;
use std::io;

/// How many bytes are read at once, at most.
const PIECE: usize = 16384;

/// The samples of a WAV file of which all bits count, as raw samples: those of 8 bits, which are unsigned in the file,
/// become signed as they are read.
#[derive(Drop)]
pub(crate) struct Turned<S: Source> {
    source: S,
    /// How many bytes a sample has.
    wide: usize,
    ghost few: { wide ≤ 4 },
}

impl<S: Source> Turned<S> {
    /// The samples that come from a source, of `wide` bytes each.
    pub(crate) fn new(source: S, wide: usize) -> Turned<S>
        requires { wide ≤ 4 }
        ensures source { result.source ≡ source }
        ensures wide { result.wide ≡ wide }
    {
        Turned { source, wide }
    }

    /// The source, with what did not come yet.
    pub(crate) fn into_source(self) -> S
        ensures { result ≡ self.source }
    {
        let Turned { source, wide: _ } = self;
        source
    }
}

impl<S: Source> Source for Turned<S> {
    ghost known = { λ s. S.known s.source };

    ghost coming = { λ s. wave_samples (8 * s.wide) (S.coming s.source) };

    ghost after = { λ s. S.after s.source };

    ghost errors = { λ s. S.errors s.source };

    ghost raised = { λ s. S.raised s.source };

    ghost most = { λ s. S.most s.source };

    ghost names = { λ s. S.names s.source };

    fn pull(&mut self, buf: &mut [u8]) -> io::Result<usize> {
        match self.source.pull(buf) {
            Ok(count) => {
                turn(self.wide, &mut buf[..count]);
                Ok(count)
            }
            Err(error) => Err(error),
        }
    }
}

/// How samples of a WAV file of which only the highest bits count become those of a stream.
#[derive(Clone, Copy)]
pub(crate) struct Lowering {
    /// How many bytes a sample has in the file.
    pub(crate) wide: usize,
    /// How many bytes it has in the stream.
    pub(crate) width: usize,
    /// How many bits are dropped, the lowest.
    pub(crate) shift: u32,
}

/// A number of the bytes of a sample of the file, lowered.
fn lowered_number(form: Lowering, number: u64) -> u64
    requires { Lowers form }
    ensures { result ≡ lowered_number form.wide form.width form.shift number }
{
    let limit: u64 = 1 << (8 * form.width);
    let low = (number >> form.shift) % limit;
    if number < 1 << (8 * form.wide - 1) {
        return low % limit;
    }
    (low + (limit - (1 << (8 * form.wide - form.shift as usize)))) % limit
}

/// Writes each whole sample of a file as one of a stream. Returns how many bytes were written.
fn lower_into(form: Lowering, samples: &[u8], out: &mut [u8]) -> usize
    requires form { Lowers form }
    requires room { length samples.now ≤ length out.old }
    ensures lowered { take result out.new ≡ low_of form samples.now }
    ensures few { result ≤ length samples.now }
{
    let Lowering {
        wide,
        width,
        shift: _,
    } = form;
    let count = samples.len() / wide;
    for i in 0..count {
        let number = LittleEndian::read_uint(&samples[i * wide..], wide);
        let low = lowered_number(form, number);
        LittleEndian::write_uint(&mut out[i * width..], low, width);
    }
    count * width
}

/// Fills the front of `places` with the next bytes of a source, at most `most`, and returns how many: fewer if the
/// source ends.
///
/// # Errors
/// The source's own. Nothing is known of the bytes that came before it.
fn fill_piece<S: Source>(source: &mut S, places: &mut [u8], most: usize) -> io::Result<usize>
    requires { most ≤ length places.old }
    ensures few { IfOk result (λ n. n ≤ most) }
    ensures bytes { IfOk result (λ n. Gave S.Source source.old source.new (take n places.new)) }
    ensures end { IfOk result (λ n. n < most → S.known source.old ≡ true → S.coming source.new ≡ []) }
    ensures known { OnOk result (S.known source.old ≡ true → S.known source.new ≡ true) }
    ensures counted { OnOk result (NoneRaised S.Source source.old source.new) }
    ensures most { IfOk result (λ n. S.most source.new + n ≤ S.most source.old) }
    ensures kept { S.errors source.old ≤ S.errors source.new }
    ensures rises { OnErr result (S.known source.old ≡ true → S.raised source.old < S.raised source.new) }
    ensures risen { OnErr result (Rises (S.raised source.old) (S.raised source.new)) }
    ensures names { S.names source.new ≡ S.names source.old }
{
    let mut count = 0;
    while count < most {
        match source.pull(&mut places[count..most]) {
            Ok(more) => {
                if more == 0 {
                    return Ok(count);
                }
                count += more;
            }
            Err(error) => return Err(error),
        }
    }
    Ok(count)
}

/// Reads the next samples of a file, and writes them as those of a stream. Returns how many bytes were written: 0 if
/// the source has no whole sample more.
///
/// # Errors
/// The source's own.
fn refill<S: Source>(source: &mut S, form: Lowering, low: &mut [u8]) -> io::Result<usize>
    requires form { Lowers form }
    requires room { length low.old ≡ 16384 }
    ensures few { IfOk result (λ n. n ≤ 16384) }
    ensures bytes { IfOk result (λ n. S.known source.old ≡ true →
        low_of form (S.coming source.old) ≡ take n low.new ++ low_of form (S.coming source.new)) }
    ensures end { IfOk result (λ n. n ≡ 0 → S.known source.old ≡ true → low_of form (S.coming source.old) ≡ []) }
    ensures known { OnOk result (S.known source.old ≡ true → S.known source.new ≡ true) }
    ensures counted { OnOk result (NoneRaised S.Source source.old source.new) }
    ensures most { IfOk result (λ n. S.most source.new + n ≤ S.most source.old) }
    ensures kept { S.errors source.old ≤ S.errors source.new }
    ensures rises { OnErr result (S.known source.old ≡ true → S.raised source.old < S.raised source.new) }
    ensures risen { OnErr result (Rises (S.raised source.old) (S.raised source.new)) }
    ensures names { S.names source.new ≡ S.names source.old }
{
    let mut piece = [0u8; PIECE];
    let size = PIECE / form.wide * form.wide;
    match fill_piece(source, &mut piece, size) {
        Ok(count) => Ok(lower_into(form, &piece[..count], low)),
        Err(error) => Err(error),
    }
}

/// Copies the front of some bytes, as many as there is room for. Returns how many.
fn give(held: &[u8], buf: &mut [u8]) -> usize
    ensures front { take result buf.new ≡ take result held.now }
    ensures few { (result ≤ length held.now) × (result ≤ length buf.old) }
    ensures end { result ≡ 0 → 0 < length buf.old → length held.now ≡ 0 }
{
    let count = held.len().min(buf.len());
    buf[..count].copy_from_slice(&held[..count]);
    count
}

/// The bytes from one place to another.
fn held_in(bytes: &[u8], from: usize, to: usize) -> &[u8]
    ensures { result.now ≡ held_in from to bytes.now }
{
    let (front, _) = bytes.split_at(to.min(bytes.len()));
    let (_, held) = front.split_at(from.min(front.len()));
    held
}

/// The samples of a WAV file of which only the highest bits count, as raw samples: each is lowered as it is read.
///
/// After an error of the source nothing is known of the samples.
#[derive(Drop)]
pub(crate) struct Lowered<S: Source> {
    source: S,
    form: Lowering,
    /// Samples that were read, lowered. Those from byte `from` to byte `to` were not given out yet.
    low: Vec<u8>,
    from: usize,
    to: usize,
    /// Whether the source returned an error. It is there for proofs alone.
    failed: bool,
    ghost lowers: { Lowers form },
    ghost room: { length low.items ≡ 16384 },
}

/// Places for the samples that a [`Lowered`] holds.
///
/// # Errors
/// An allocation fails.
pub(crate) fn low_places(alloc: Global) -> Result<Vec<u8>, Why>
    ensures long { IfOk result (λ low. length low.items ≡ 16384) }
    ensures memory { IfErr result (λ e. e ≡ why.Memory) }
{
    let mut low = Vec::new(alloc);
    low.resize(PIECE, 0)?;
    Ok(low)
}

impl<S: Source> Lowered<S> {
    ghost use Rattle.flac_cli.specs.inner.LoweredSource.{held_of, left_of, most_of};

    /// The samples that come from a source. `low` are places for some of them.
    pub(crate) fn new(source: S, form: Lowering, low: Vec<u8>) -> Lowered<S>
        requires form { Lowers form }
        requires room { length low.items ≡ 16384 }
        ensures source { result.source ≡ source }
        ensures form { result.form ≡ form }
        ensures none { held_in result.from result.to result.low.items ≡ [] }
        ensures whole { result.failed ≡ false }
    {
        Lowered {
            source,
            form,
            low,
            from: 0,
            to: 0,
            failed: false,
        }
    }

    /// The source, with what did not come yet.
    pub(crate) fn into_source(self) -> S
        ensures { result ≡ self.source }
    {
        let Lowered {
            source,
            form: _,
            low: _,
            from: _,
            to: _,
            failed: _,
        } = self;
        source
    }

    /// Reads samples if all that were read were given out.
    ///
    /// # Errors
    /// The source's own.
    fn top_up(&mut self) -> io::Result<()>
        ensures form { self.new.form ≡ self.old.form }
        ensures bytes { OnOk result
            (S.known self.old.source ≡ true → left_of S.Source self.old ≡ left_of S.Source self.new) }
        ensures end { OnOk result (S.known self.old.source ≡ true → held_of S.Source self.new ≡ [] →
            left_of S.Source self.new ≡ []) }
        ensures failed { OnOk result (self.new.failed ≡ self.old.failed) }
        ensures fails { OnErr result (self.new.failed ≡ true) }
        ensures known { OnOk result (S.known self.old.source ≡ true → S.known self.new.source ≡ true) }
        ensures counted { OnOk result (NoneRaised S.Source self.old.source self.new.source) }
        ensures most { OnOk result (most_of S.Source self.new ≤ most_of S.Source self.old) }
        ensures kept { S.errors self.old.source ≤ S.errors self.new.source }
        ensures rises { OnErr result (S.known self.old.source ≡ true →
            S.raised self.old.source < S.raised self.new.source) }
        ensures risen { OnErr result (Rises (S.raised self.old.source) (S.raised self.new.source)) }
        ensures names { S.names self.new.source ≡ S.names self.old.source }
    {
        if !held_in(self.low.as_slice(), self.from, self.to).is_empty() {
            return Ok(());
        }
        match refill(&mut self.source, self.form, self.low.as_mut_slice()) {
            Ok(count) => {
                self.from = 0;
                self.to = count;
                Ok(())
            }
            Err(error) => {
                self.failed = true;
                Err(error)
            }
        }
    }
}

impl<S: Source> Source for Lowered<S> {
    ghost known = { λ s. S.known s.source && not s.failed };

    ghost coming = { λ s. held_in s.from s.to s.low.items ++ low_of s.form (S.coming s.source) };

    ghost after = { λ _. the_end };

    ghost errors = { λ s. S.errors s.source + one_if s.failed };

    ghost raised = { λ s. S.raised s.source };

    ghost most = { λ s. length (held_in s.from s.to s.low.items) + S.most s.source };

    ghost names = { λ s. S.names s.source };

    fn pull(&mut self, buf: &mut [u8]) -> io::Result<usize> {
        match self.top_up() {
            Ok(()) => {
                let count = give(held_in(self.low.as_slice(), self.from, self.to), buf);
                self.from += count;
                Ok(count)
            }
            Err(error) => Err(error),
        }
    }
}
