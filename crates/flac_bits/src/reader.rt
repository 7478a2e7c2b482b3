//! Reading of bits from a source of bytes.

ghost use Rattle.std.specs.Prelude.{◌≡◌, ◌≢◌, ◌<◌, ◌≤◌, ◌+◌, ◌^◌, ◌-◌, [], true, IfOk, IfErr, OnOk, ◌*◌, length, take, IfSome, None, Some, Ok, false, MatchResult};
ghost use Rattle.flac_bits.specs.Reasons.{of_output};
ghost use Rattle.flac_bits.specs.Bits.{bits_of};
ghost use Rattle.flac_bits.specs.State.{State, short_of, started, without_fence, first_mark, with_short};
ghost use Rattle.flac_bits.specs.Fencing.{fence_at, lifted};
ghost use Rattle.flac_bits.specs.Store.{state_of};
ghost use Rattle.flac_bits.specs.inner.Pulling.{Pulls};
ghost use Rattle.flac_bits.specs.Layout.{next_bit, number_at, zeros_at, unary as zeros, align as to_byte, run};
ghost use Rattle.std.specs.Prelude.{All};
ghost use Rattle.flac_bits.specs.Lists.{list_of};
ghost use Rattle.flac_bits.specs.Rice.{rice, rice_value, IsResidual};
ghost use Rattle.flac_bits.specs.Signed.{signed_field, FitsBits};
ghost use Rattle.flac_bits.specs.Reading.{Counts, Gives, Reads, CallInPlace, PullsFor, PullsInside, ReadsRice, ReadsSigned, ConsumesBytes, PullsBytes, IsAtEnd, IsForetold, SaysOver, SaysShort};
ghost use Rattle.flac_bits.specs.inner.Reading.{SameSource, TookHeld, TookBits, FromWord, LeavesValues, values_from, DrawsValues, AreResiduals, TookZeros, SkippedZeros};
ghost use Rattle.flac_bits.specs.inner.Unchecked.{FillsBytes, started_unless};

use crate::held::Held;
use crate::signed::{MOST_FOLDED, to_signed, unfolded};
use crate::source::Source;
use crate::stretch::MOST_READY;
use crate::why::Why;
use std::marker::Model;

/// Reads a source bit by bit, the highest bit of a byte first. It pulls up to 8192 bytes at a time from the source.
///
/// # Errors
/// A call that needs more bits than are left returns [`Why::Truncated`] if the input ends, [`Why::FrameTooLong`] if a
/// fence is there ([`BitReader::fence`]), and [`Why::Read`] if the source returned an error. Which bits were read
/// before the error is not specified. The source is asked for bytes only if too few bits are held.
#[derive(Drop)]
pub struct BitReader<R: Source> {
    source: R,
    held: Held,
}

impl<R: Source> Model for BitReader<R> {
    ghost Value = { State };

    ghost view = { λ r. state_of (R.known r.source) (R.errors r.source) (R.raised r.source) (R.most r.source) (R.after r.source) (R.names r.source) (R.coming r.source) r.held };
}

/// Makes sure that the word has at least one bit; false if none is left.
fn fill<R: Source>(held: &mut Held, source: &mut R) -> Result<bool, Why>
    ensures pulls { Pulls R.Source held.old held.new source.old source.new result }
    ensures more { result ≡ Ok true → 1 ≤ length held.new.word }
{
    if held.ready() > 0 {
        return Ok(true);
    }
    if held.begin_byte() {
        return Ok(true);
    }
    match held.pull(source) {
        Ok(more) => {
            let _begun = held.begin_byte();
            Ok(more)
        }
        Err(why) => Err(why),
    }
}

/// Empties the word into the array, and makes sure that the array has a byte; false if none is left. The reader is at a
/// whole byte.
fn refill<R: Source>(held: &mut Held, source: &mut R) -> Result<bool, Why>
    requires { held.old.mark.unread ≡ 0 }
    ensures pulls { Pulls R.Source held.old held.new source.old source.new result }
    ensures more { result ≡ Ok true → 0 < length held.new.bytes }
    ensures word { held.new.word ≡ [] }
{
    held.put_back();
    if !held.is_drained() {
        return Ok(true);
    }
    held.pull(source)
}

impl<R: Source> BitReader<R> {
    /// Makes a reader that begins at the first bit of the source, without a fence. Both checks begin there, and no byte
    /// is counted yet.
    ///
    /// ```
    /// let bytes = [0x4C, 0xF0];
    /// let mut bits = BitReader::new(Memory::new(&bytes));
    /// let first = bits.take(4)?; // 4
    /// let second = bits.take_signed(4)?; // -4
    /// ```
    pub fn new(source: R) -> BitReader<R>
        ensures { result ≡ record {
          known = R.known source;
          errors = R.errors source;
          raised = R.raised source;
          after = without_fence (R.after source);
          most = 8 * R.most source;
          held = 0;
          names = R.names source;
          cursor = record { left = bits_of (R.coming source); mark = with_short (short_of ((R.after source).fails)) first_mark };
        } }
    {
        BitReader {
            source,
            held: Held::new(),
        }
    }

    /// The next n bits, if the word has them.
    #[inline(always)]
    fn ready(&mut self, n: u32) -> Option<u64>
        ensures some { IfSome result (λ v. TookBits n v self.old self.new) }
        ensures none { result ≡ None → self.new ≡ self.old }
        // proof only
        ensures held { IfSome result (λ _. self.new.held + n ≡ self.old.held) }
    {
        if n <= self.held.ready() {
            Some(self.held.take(n))
        } else {
            None
        }
    }

    /// Moves four bytes into the word if it has room for them. Nothing changes for a caller.
    #[inline(always)]
    fn top_up(&mut self)
        ensures { self.new ≡ self.old }
    {
        self.held.top_up();
    }

    /// Reads one bit.
    fn bit(&mut self) -> Result<bool, Why>
        ensures reading { CallInPlace 1 (Gives (λ b. b) (next_bit self.old.cursor)) self.old self.new result }
        ensures needed { PullsFor 1 self.old self.new result }
    {
        match fill(&mut self.held, &mut self.source) {
            Ok(true) => Ok(self.held.take(1) == 1),
            Ok(false) => Err(self.held.short()),
            Err(why) => Err(why),
        }
    }

    /// Reads n bits one by one.
    #[inline(never)]
    #[tactic(auto, unfolding(crate::specs::Layout::number_at, crate::specs::Layout::number_from), using(crate::proofs::Loops::number_more))]
    fn take_slow(&mut self, n: u32) -> Result<u64, Why>
        requires { n ≤ 64 }
        ensures small { IfOk result (λ v. v < 2 ^ n) }
        ensures reading { CallInPlace n (Gives (λ v. v) (number_at n self.old.cursor)) self.old self.new result }
        ensures needed { PullsFor n self.old self.new result }
    {
        let mut value = 0u64;
        for i in 0..n {
            let bit = self.bit()?;
            value = 2 * value + u64::from(bit);
        }
        Ok(value)
    }

    /// Reads n bits as an unsigned number, the highest bit first. n is at most 64; 0 bits are the number 0.
    ///
    /// # Errors
    /// Those of [`BitReader`].
    #[inline(always)]
    pub fn take(&mut self, n: u32) -> Result<u64, Why>
        requires { n ≤ 64 }
        ensures small { IfOk result (λ v. v < 2 ^ n) }
        ensures reading { CallInPlace n (Gives (λ v. v) (number_at n self.old.cursor)) self.old self.new result }
        ensures needed { PullsFor n self.old self.new result }
    {
        if let Some(value) = self.ready(n) {
            return Ok(value);
        }
        self.take_more(n)
    }

    /// What [`BitReader::take`] does if the word has too few bits: it is filled first, above 32 bits twice.
    #[inline(never)]
    #[tactic(auto, using(crate::proofs::Loops::number_halves))]
    fn take_more(&mut self, n: u32) -> Result<u64, Why>
        requires { n ≤ 64 }
        ensures small { IfOk result (λ v. v < 2 ^ n) }
        ensures reading { CallInPlace n (Gives (λ v. v) (number_at n self.old.cursor)) self.old self.new result }
        ensures needed { PullsFor n self.old self.new result }
    {
        if n <= 32 {
            return self.take_few(n);
        }
        let high = self.take_few(n - 32)?;
        let low = self.take_few(32)?;
        Ok((high << 32) + low)
    }

    /// Reads n bits, at most 32.
    fn take_few(&mut self, n: u32) -> Result<u64, Why>
        requires { n ≤ 32 }
        ensures small { IfOk result (λ v. v < 2 ^ n) }
        ensures reading { CallInPlace n (Gives (λ v. v) (number_at n self.old.cursor)) self.old self.new result }
        ensures needed { PullsFor n self.old self.new result }
    {
        self.top_up();
        if let Some(value) = self.ready(n) {
            return Ok(value);
        }
        self.take_slow(n)
    }

    /// Reads zeros and a one, if the word has them.
    #[inline(always)]
    fn ready_unary(&mut self, limit: u64) -> Option<u64>
        ensures some { IfSome result (λ q. TookZeros limit q self.old self.new) }
        ensures none { result ≡ None → self.new ≡ self.old }
        // proof only
        ensures held { IfSome result (λ _. TookHeld self.old self.new) }
    {
        self.held.unary(limit)
    }

    /// Takes all bits of the word, if they are zeros and at most `limit`, and returns how many they were, else 0.
    #[inline(always)]
    fn skip_zeros(&mut self, limit: u64) -> u64
        ensures few { result ≤ limit }
        ensures skipped { SkippedZeros result self.old self.new }
    {
        self.held.blank(limit)
    }

    /// What [`BitReader::unary`] does, bit by bit, but zeros that fill the word at once.
    #[inline(never)]
    #[tactic(auto, unfolding(crate::specs::Layout::zeros_at, crate::specs::Layout::zeros_from), using(crate::proofs::Loops::zeros_more, crate::proofs::Loops::zeros_last))]
    fn unary_slow(&mut self, limit: u64) -> Result<Option<u64>, Why>
        ensures within { IfOk result (λ o. IfSome o (λ q. q ≤ limit)) }
        ensures reading { CallInPlace 0 (Gives (λ v. v) (zeros_at limit self.old.cursor)) self.old self.new result }
        ensures needed { PullsInside (zeros limit) self.old self.new result }
    {
        let mut zeros = 0;
        while zeros < limit {
            if self.bit()? {
                return Ok(Some(zeros));
            }
            zeros += 1;
            zeros += self.skip_zeros(limit - zeros);
        }
        if self.bit()? {
            return Ok(Some(limit));
        }
        Ok(None)
    }

    /// Reads zeros up to the next one, and the one, and returns the number of zeros. If there are more than `limit`
    /// zeros, it reads `limit + 1` of them and returns `None`.
    ///
    /// # Errors
    /// Those of [`BitReader`].
    #[inline(always)]
    pub fn unary(&mut self, limit: u64) -> Result<Option<u64>, Why>
        ensures within { IfOk result (λ o. IfSome o (λ q. q ≤ limit)) }
        ensures reading { CallInPlace 0 (Gives (λ v. v) (zeros_at limit self.old.cursor)) self.old self.new result }
        ensures needed { PullsInside (zeros limit) self.old self.new result }
    {
        self.top_up();
        if let Some(zeros) = self.ready_unary(limit) {
            return Ok(Some(zeros));
        }
        self.unary_slow(limit)
    }

    /// Reads one value of a Rice code, if the word has it.
    #[inline(always)]
    fn ready_rice(&mut self, k: u32, limit: u64) -> Option<u64>
        requires k { k ≤ 30 }
        requires limit { limit < 2 ^ 32 }
        ensures some { IfSome result (FromWord self.old self.new (run (rice k limit) self.old.cursor)) }
        ensures none { result ≡ None → self.new ≡ self.old }
        // proof only
        ensures held { IfSome result (λ _. TookHeld self.old self.new) }
    {
        self.held.rice(k, limit)
    }

    /// What [`BitReader::folded_value`] does, part by part.
    #[inline(never)]
    #[cold]
    #[tactic(auto, unfolding(crate::specs::Rice::rice), using(crate::proofs::Rices::joined))]
    fn rice_slow(&mut self, k: u32, limit: u64) -> Result<u64, Why>
        requires k { k ≤ 30 }
        requires limit { limit < 2 ^ 32 }
        ensures reading { CallInPlace 0 (Reads (λ v. v) (rice k limit)) self.old self.new result }
        ensures needed { PullsInside (rice k limit) self.old self.new result }
    {
        let Some(zeros) = self.unary(limit)? else {
            return Err(Why::ResidualRange);
        };
        let low = self.take(k)?;
        Ok((zeros << k) + low)
    }

    /// What [`BitReader::folded_value`] does if the word does not have the whole value: it is filled first.
    #[inline(never)]
    fn folded_more(&mut self, k: u32, limit: u64) -> Result<u64, Why>
        requires k { k ≤ 30 }
        requires limit { limit < 2 ^ 32 }
        ensures reading { CallInPlace 0 (Reads (λ v. v) (rice k limit)) self.old self.new result }
        ensures needed { PullsInside (rice k limit) self.old self.new result }
    {
        self.top_up();
        if let Some(value) = self.ready_rice(k, limit) {
            return Ok(value);
        }
        self.rice_slow(k, limit)
    }

    /// Reads a folded value of a Rice code: zeros and a one, and the lowest k bits. The zeros are at most `limit`.
    #[inline(always)]
    fn folded_value(&mut self, k: u32, limit: u64) -> Result<u64, Why>
        requires k { k ≤ 30 }
        requires limit { limit < 2 ^ 32 }
        ensures reading { CallInPlace 0 (Reads (λ v. v) (rice k limit)) self.old self.new result }
        ensures needed { PullsInside (rice k limit) self.old self.new result }
    {
        if let Some(value) = self.ready_rice(k, limit) {
            return Ok(value);
        }
        self.folded_more(k, limit)
    }

    /// Reads a residual value under the Rice parameter k (RFC 9639, sections 9.2.7.2 and 9.2.7.3).
    #[inline(always)]
    #[tactic(auto, unfolding(crate::specs::Rice::rice_value))]
    fn rice_value(&mut self, k: u32) -> Result<i64, Why>
        requires { k ≤ 30 }
        ensures fits { IfOk result IsResidual }
        ensures reading { CallInPlace 0 (Reads (λ v. v) (rice_value k)) self.old self.new result }
        ensures needed { PullsInside (rice_value k) self.old self.new result }
    {
        let folded = self.folded_value(k, MOST_FOLDED >> k)?;
        if folded > MOST_FOLDED {
            return Err(Why::ResidualRange);
        }
        Ok(unfolded(folded))
    }

    /// Fills `values` from the index `from` on with residual values, as far as the bytes held have them, and returns
    /// where it stopped.
    #[inline(always)]
    fn ready_values(&mut self, k: u32, values: &mut [i64], from: usize) -> usize
        requires { from ≤ length values.old }
        ensures within { (from ≤ result) × (result ≤ length values.old) }
        // proof only
        ensures went { (self.new.most ≤ self.old.most) × SameSource self.old self.new }
        ensures reads { LeavesValues k (length values.old)
            values.old from self.old.cursor values.new result self.new.cursor }
        // proof only
        ensures fits { AreResiduals values.old from → AreResiduals values.new result }
        // proof only
        ensures drawn { DrawsValues k (length values.old) from result self.old self.new }
    {
        if k > MOST_READY {
            return from;
        }
        self.held.values(k, values, from)
    }

    /// Fills `values` with the next residual values under the Rice parameter k, at most 30 (RFC 9639, sections 9.2.7.2
    /// and 9.2.7.3).
    ///
    /// # Errors
    /// [`Why::ResidualRange`] if a value is not strictly between -2^31 and 2^31; and those of [`BitReader`]. What
    /// `values` has then is not specified.
    #[tactic(auto, using(crate::proofs::Lists::list_more, crate::proofs::Lists::list_end, crate::proofs::Lists::list_start))]
    pub fn rice_partition(&mut self, k: u32, values: &mut [i64]) -> Result<(), Why>
        requires { k ≤ 30 }
        ensures fits { OnOk result (All IsResidual values.new) }
        ensures reading { CallInPlace 0 (ReadsRice k (length values.old) values.new) self.old self.new result }
        ensures needed { PullsInside (list_of (length values.old) (rice_value k)) self.old self.new result }
    {
        let mut i = 0;
        while i < values.len() {
            self.top_up();
            let next = self.ready_values(k, values, i);
            if next > i {
                i = next;
            } else {
                values[i] = self.rice_value(k)?;
                i += 1;
            }
        }
        Ok(())
    }

    /// Reads n bits as a signed number in two's complement. n is 1 to 64.
    ///
    /// # Errors
    /// Those of [`BitReader`].
    #[inline(always)]
    #[tactic(auto, unfolding(crate::specs::Signed::signed_field))]
    pub fn take_signed(&mut self, n: u32) -> Result<i64, Why>
        requires some { 1 ≤ n }
        requires few { n ≤ 64 }
        ensures fits { IfOk result (FitsBits n) }
        ensures reading { CallInPlace n (Reads (λ v. v) (signed_field n)) self.old self.new result }
        ensures needed { PullsFor n self.old self.new result }
    {
        let value = self.take(n)?;
        Ok(to_signed(value, n))
    }

    /// Fills `values` with the next signed numbers of n bits each, in two's complement. n is 1 to 64. Escaped
    /// partitions have this form (RFC 9639, section 9.2.7.1).
    ///
    /// # Errors
    /// Those of [`BitReader`]. What `values` has then is not specified.
    #[tactic(auto, using(crate::proofs::Lists::list_more, crate::proofs::Lists::list_end, crate::proofs::Lists::list_start))]
    pub fn signed_partition(&mut self, n: u32, values: &mut [i64]) -> Result<(), Why>
        requires some { 1 ≤ n }
        requires few { n ≤ 64 }
        ensures fits { OnOk result (All (FitsBits n) values.new) }
        ensures reading { CallInPlace 0 (ReadsSigned n (length values.old) values.new) self.old self.new result }
        ensures needed { PullsFor (n * length values.old) self.old self.new result }
    {
        for i in 0..values.len() {
            values[i] = self.take_signed(n)?;
        }
        Ok(())
    }

    /// Reads some of the next bytes: at least one if `out` has room, none if none is left.
    fn some_bytes(&mut self, out: &mut [u8]) -> Result<usize, Why>
        requires { self.old.cursor.mark.unread ≡ 0 }
        ensures bound { IfOk result (λ n. n ≤ length out.new) }
        ensures spends { IfOk result (λ n. self.new.most + 8 * n ≤ self.old.most) }
        ensures whole { OnOk result (self.new.cursor.mark.unread ≡ 0) }
        ensures counts { Counts self.old self.new result }
        ensures taken { IfOk result (λ n. ConsumesBytes (take n out.new) self.old self.new) }
        ensures over { result ≡ Ok 0 → 0 < length out.new → self.old.known ≡ true → IsAtEnd self.old.cursor }
        ensures cut { IfErr result (IsForetold (self.old.cursor.left ≡ []) self.old self.new) }
        ensures needed { MatchResult result (λ n. self.old.held ≤ self.new.held + 8 * n) (λ _. self.old.held ≡ 0) }
    {
        match refill(&mut self.held, &mut self.source) {
            Ok(true) => Ok(self.held.copy(out)),
            Ok(false) => Ok(0),
            Err(why) => Err(why),
        }
    }

    /// Fills the front of `out` with the next bytes and returns how many: all of `out`, or fewer if the input ends
    /// before, or a fence is there. The reader must be at a whole byte (see [`BitReader::unread`]).
    ///
    /// # Errors
    /// [`Why::Read`] if the source returned an error.
    pub fn take_bytes(&mut self, out: &mut [u8]) -> Result<usize, Why>
        requires { self.old.cursor.mark.unread ≡ 0 }
        ensures bound { IfOk result (λ n. n ≤ length out.new) }
        ensures spends { IfOk result (λ n. self.new.most + 8 * n ≤ self.old.most) }
        ensures whole { OnOk result (self.new.cursor.mark.unread ≡ 0) }
        ensures counts { Counts self.old self.new result }
        ensures taken { IfOk result (λ n. ConsumesBytes (take n out.new) self.old self.new) }
        ensures over { IfOk result (λ n. n < length out.new → self.old.known ≡ true → IsAtEnd self.new.cursor) }
        ensures cut { IfErr result (IsForetold (length self.old.cursor.left < 8 * length out.new) self.old self.new) }
        ensures needed { PullsBytes (length out.new) self.old self.new result }
    {
        self.take_pieces(out, true)
    }

    /// What [`BitReader::take_bytes`] does, if the checks go on over these bytes (`checked`). If not, the checks
    /// restart after each piece, so that none is computed of these bytes.
    pub(crate) fn take_pieces(&mut self, out: &mut [u8], checked: bool) -> Result<usize, Why>
        requires { self.old.cursor.mark.unread ≡ 0 }
        ensures bound { IfOk result (λ n. n ≤ length out.new) }
        ensures spends { IfOk result (λ n. self.new.most + 8 * n ≤ self.old.most) }
        ensures whole { OnOk result (self.new.cursor.mark.unread ≡ 0) }
        ensures counts { Counts self.old self.new result }
        ensures taken { IfOk result (λ n. FillsBytes checked (take n out.new) self.old self.new) }
        ensures over { IfOk result (λ n. n < length out.new → self.old.known ≡ true → IsAtEnd self.new.cursor) }
        ensures cut { IfErr result (IsForetold (length self.old.cursor.left < 8 * length out.new) self.old self.new) }
        ensures needed { PullsBytes (length out.new) self.old self.new result }
    {
        self.start_unless(checked);
        let mut done = 0;
        while done < out.len() {
            match self.some_bytes(&mut out[done..]) {
                Ok(0) => return Ok(done),
                Ok(n) => done += n,
                Err(why) => return Err(why),
            }
            self.start_unless(checked);
        }
        Ok(done)
    }

    /// Restarts both checks, unless they are to go on.
    fn start_unless(&mut self, checked: bool)
        ensures { self.new ≡ started_unless checked self.old }
    {
        if !checked {
            self.start_checks();
        }
    }

    /// The error for a field that needs more bits than are left, if the source did not fail: [`Why::FrameTooLong`] at a
    /// fence, else [`Why::Truncated`].
    pub fn short(&self) -> Why
        ensures short { SaysShort self.now result }
        ensures memory { result ≢ Why.Memory }
        ensures device { (result ≢ Why.Read) × (of_output result ≡ false) }
    {
        self.held.short()
    }

    /// How many bits of the current byte are not read yet: 0 to 7, 0 at a whole byte.
    pub fn unread(&self) -> u32
        ensures { (result ≡ self.now.cursor.mark.unread) × (result < 8) }
    {
        self.held.unread()
    }

    /// Whether no bit is left, up to the end of the input or a fence. The position does not change.
    ///
    /// # Errors
    /// [`Why::Read`] if the source returns an error in place of the end.
    pub fn at_end(&mut self) -> Result<bool, Why>
        ensures spends { OnOk result (self.new.most ≤ self.old.most) }
        ensures counts { Counts self.old self.new result }
        ensures memory { IfErr result (λ e. e ≢ Why.Memory) }
        ensures over { IfOk result (SaysOver self.old self.new) }
        ensures ended { result ≡ Ok true → self.old.known ≡ true → self.old.cursor.mark.short ≡ Why.Read → ⊥ }
        ensures read { IfErr result (IsForetold (self.old.cursor.left ≡ []) self.old self.new) }
        ensures needed { MatchResult result (λ _. self.old.held ≤ self.new.held) (λ _. self.old.held ≡ 0) }
    {
        match fill(&mut self.held, &mut self.source) {
            Ok(more) => Ok(!more),
            Err(why) => Err(why),
        }
    }

    /// Sets a fence: only the rest of the current byte and the `bytes` bytes after it can be read, until
    /// [`BitReader::lift`]. It replaces an earlier fence.
    ///
    /// If all these bytes are there, a field that needs a bit after them is refused with [`Why::FrameTooLong`]. If the
    /// input ends before, errors are those without a fence.
    pub fn fence(&mut self, bytes: u64)
        ensures { self.new ≡ fence_at bytes self.old }
    {
        self.held.fence(bytes);
    }

    /// Removes the fence: the bits after it can be read again.
    pub fn lift(&mut self)
        ensures { self.new ≡ lifted self.old }
    {
        self.held.lift();
    }

    /// Returns the source. Bytes that were pulled from it and not read yet are lost.
    pub fn into_source(self) -> R
        ensures known { R.known result ≡ true → self.known ≡ true }
        ensures told { self.known ≡ true → R.known result ≡ true }
        ensures errors { R.errors result ≡ self.errors }
        ensures raised { R.raised result ≡ self.raised }
        ensures after { without_fence (R.after result) ≡ without_fence self.after }
        ensures most { 8 * R.most result ≤ self.most }
        ensures names { R.names result ≡ self.names }
    {
        let BitReader { source, held: _ } = self;
        source
    }

    /// How many bytes were read since the reader was made, at most 2^64 - 1. A byte counts from its first bit on.
    pub fn bytes_taken(&self) -> u64
        ensures { result ≡ self.now.cursor.mark.bytes }
    {
        self.held.bytes_taken()
    }

    /// The CRC-8 of the bits that were read since the checks began: generator x^8 + x^2 + x + 1, from 0 (RFC 9639,
    /// section 9.1.8).
    pub fn check8(&self) -> u8
        ensures { result ≡ self.now.cursor.mark.check8 }
    {
        self.held.check8()
    }

    /// The CRC-16 of the bits that were read since the checks began: generator x^16 + x^15 + x^2 + 1, from 0 (RFC 9639,
    /// section 9.3).
    pub fn check16(&self) -> u16
        ensures { result ≡ self.now.cursor.mark.check16 }
    {
        self.held.check16()
    }

    /// Restarts both checks from 0 if the reader is at a whole byte; else nothing changes.
    pub fn start_checks(&mut self)
        ensures { self.new ≡ started self.old }
    {
        if self.held.unread() == 0 {
            self.held.start_checks();
        }
    }

    /// Reads the bits up to the next whole byte, 0 to 7 of them, and returns whether all are zeros.
    ///
    /// # Errors
    /// Those of [`BitReader`].
    pub fn align(&mut self) -> Result<bool, Why>
        ensures reading { CallInPlace 0 (Reads (λ b. b) to_byte) self.old self.new result }
        ensures needed { PullsFor self.old.cursor.mark.unread self.old self.new result }
    {
        let unread = self.held.unread();
        let bits = self.take(unread)?;
        Ok(bits == 0)
    }
}
