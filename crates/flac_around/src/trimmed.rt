//! A source of an Ogg stream without the empty packets at its end.

ghost use Rattle.std.specs.Prelude.{◌≡◌, ◌≤◌, ◌<◌, ◌+◌, ◌-◌, ◌++◌, ◌⊎◌, ◌&&◌, not, nat_eq, true, false, [], length, take, slice_set, IfOk, OnOk, OnErr};
ghost use Rattle.flac_around.specs.EmptyPackets.{page_bytes, checked, given_for, leaves_out};
ghost use Rattle.flac_around.specs.inner.Pages.{IsLead, IsGiven, page_of};
ghost use Rattle.flac_around.specs.inner.Pulling.{Goes, Fails, Gives, KeepsComing, IsEnded};
ghost use Rattle.flac_around.specs.Holding.{part};

use crate::page_parts::{BODY, HEAD, LEAD, complete, kept};
use crate::page_reading::read_page;
use flac_bits::Source;
use std::io;

/// What is given of a page.
#[derive(Clone, Copy)]
struct Given {
    /// How many bytes before its segments, and how many of its segments.
    lead: usize,
    body: usize,
    /// Whether empty packets were left out, of this page or before.
    left_out: bool,
}

/// Whether a page, of which so many lacing values are kept, shows that empty packets were left out before another
/// packet.
fn is_after_empty(left_out: bool, kept: usize) -> bool
    ensures { result ≡ left_out && not (nat_eq kept 0) }
{
    left_out && kept != 0
}

/// Makes of a page one empty packet. `lead` has the page's bytes before the segments, and afterwards all of the new
/// page.
fn put_one_empty(lead: &mut [u8])
    requires { 28 ≤ length lead.old }
    ensures { take 28 lead.new ≡ page_bytes (checked (page_of (take 28 (slice_set lead.old 27 0)) [])) }
{
    lead[HEAD] = 0;
    complete(&mut lead[..HEAD + 1], &[]);
}

/// Makes of a page one of its first lacing values. `lead` has the page's bytes before the segments.
fn put_kept(lead: &mut [u8], kept: usize, body: &[u8])
    requires few { 27 + kept ≤ length lead.old }
    requires most { length lead.old ≤ 282 }
    ensures { take (27 + kept) lead.new ++ body.now ≡ page_bytes
        (checked (page_of (take (27 + kept) lead.old) body.now)) }
{
    complete(&mut lead[..HEAD + kept], body);
}

/// Makes of a page what is given in its place. `lead` has the page's bytes before the segments.
fn leave_out(lead: &mut [u8], body: &[u8], left_out: bool) -> Given
    requires whole { IsLead lead.old }
    requires few { length lead.old ≤ 282 }
    ensures bytes { IsGiven left_out (page_of lead.old body.now) lead.new body.now result }
    ensures left_out { result.left_out ≡ leaves_out left_out (page_of lead.old body.now) }
    ensures some { 0 < result.lead }
    ensures lead { result.lead ≤ length lead.old }
    ensures body { result.body ≤ length body.now }
{
    let count = lead.len() - HEAD;
    let kept = kept(lead[5] % 2 == 1, &lead[HEAD..]);
    if is_after_empty(left_out, kept) {
        put_one_empty(lead);
        return Given {
            lead: HEAD + 1,
            body: 0,
            left_out: true,
        };
    }
    if kept == count {
        return Given {
            lead: lead.len(),
            body: body.len(),
            left_out,
        };
    }
    put_kept(lead, kept, body);
    Given {
        lead: HEAD + kept,
        body: body.len(),
        left_out: true,
    }
}

/// Does what [`leave_out`] does for a page of which `lead` has the bytes before the segments up to `end`.
fn leave_out_of(lead: &mut [u8], end: usize, body: &[u8], left_out: bool) -> Given
    requires end { end ≤ length lead.old }
    requires few { end ≤ 282 }
    requires whole { IsLead (take end lead.old) }
    ensures bytes { IsGiven left_out (page_of (take end lead.old) body.now) lead.new body.now result }
    ensures left_out { result.left_out ≡ leaves_out left_out (page_of (take end lead.old) body.now) }
    ensures some { 0 < result.lead }
    ensures lead { result.lead ≤ end }
    ensures body { result.body ≤ length body.now }
{
    leave_out(&mut lead[..end], body, left_out)
}

/// Gives bytes of the part of `held` from `at` to `end`, and returns how many.
fn give_part(held: &[u8], at: usize, end: usize, buf: &mut [u8]) -> usize
    requires order { at < end }
    requires within { end ≤ length held.now }
    requires room { 0 < length buf.old }
    ensures some { 0 < result }
    ensures few { at + result ≤ end }
    ensures room { result ≤ length buf.new }
    ensures bytes { part at end held.now ≡ take result buf.new ++ part (at + result) end held.now }
{
    let count = buf.len().min(end - at);
    buf[..count].copy_from_slice(&held[at..at + count]);
    count
}

/// The bytes of another source, of which an Ogg stream is given without the empty packets that other programs write
/// after the last frame. Any other bytes are given as they are.
///
/// It holds one page at most. A page from which packets are left out gets another checksum, if its own is right.
#[derive(Drop)]
pub struct Trimmed<S> {
    source: S,
    /// The bytes of a page before its segments, and those of its segments.
    lead: [u8; LEAD],
    body: [u8; BODY],
    /// The parts of both that are still to be given.
    lead_at: usize,
    lead_end: usize,
    body_at: usize,
    body_end: usize,
    /// Whether empty packets were left out.
    left_out: bool,
    /// Whether the rest is given as it is.
    plain: bool,
    ghost lead_order: { lead_at ≤ lead_end },
    ghost lead_room: { lead_end ≤ 282 },
    ghost body_order: { body_at ≤ body_end },
    ghost body_room: { body_end ≤ 65025 },
}

impl<S: Source> Trimmed<S> {
    ghost use Rattle.flac_around.specs.Trimming.{ghosts_of, without_end, HasNext};

    /// A source of the bytes without these packets.
    pub fn new(source: S) -> Trimmed<S>
        ensures source { result.source ≡ source }
        ensures bytes { (ghosts_of S.Source).coming result ≡ without_end S.Source source }
    {
        Trimmed {
            source,
            lead: [0; LEAD],
            body: [0; BODY],
            lead_at: 0,
            lead_end: 0,
            body_at: 0,
            body_end: 0,
            left_out: false,
            plain: false,
        }
    }

    /// Returns the other source.
    pub fn into_source(self) -> S
        ensures { result ≡ self.source }
    {
        let Trimmed {
            source,
            lead: _,
            body: _,
            lead_at: _,
            lead_end: _,
            body_at: _,
            body_end: _,
            left_out: _,
            plain: _,
        } = self;
        source
    }

    /// Reads the next page, if nothing is held, and holds what is given in its place.
    ///
    /// # Errors
    /// That of the other source.
    fn read_next(&mut self) -> io::Result<()>
        requires going { self.old.plain ≡ false }
        requires lead { self.old.lead_at ≡ self.old.lead_end }
        requires body { self.old.body_at ≡ self.old.body_end }
        ensures some { OnOk result ((self.new.plain ≡ true) ⊎ (self.new.lead_at < self.new.lead_end)) }
        ensures bytes { OnOk result (KeepsComing (ghosts_of S.Source) self.old self.new) }
        ensures goes { OnOk result (Goes (ghosts_of S.Source) self.old self.new) }
        ensures fails { OnErr result (Fails (ghosts_of S.Source) (λ coming. coming ≡ []) self.old self.new) }
    {
        let read = match read_page(&mut self.source, &mut self.lead, &mut self.body) {
            Ok(read) => read,
            Err(error) => return Err(error),
        };
        self.lead_at = 0;
        self.body_at = 0;
        if !read.is_page {
            self.lead_end = read.lead;
            self.body_end = read.body;
            self.plain = true;
            return Ok(());
        }
        let given = leave_out_of(
            &mut self.lead,
            read.lead,
            &self.body[..read.body],
            self.left_out,
        );
        self.lead_end = given.lead;
        self.body_end = given.body;
        self.left_out = given.left_out;
        Ok(())
    }

    /// Gives some of the bytes that are held, or else of those of the other source.
    fn give(&mut self, buf: &mut [u8]) -> io::Result<usize>
        requires room { 0 < length buf.old }
        requires some { HasNext self.old }
        ensures few { IfOk result (λ n. n ≤ length buf.new) }
        ensures bytes { IfOk result (λ n. Gives (ghosts_of S.Source) self.old self.new (take n buf.new)) }
        ensures end { IfOk result (λ n. n ≡ 0 → IsEnded (ghosts_of S.Source) self.old) }
        ensures most { IfOk result (λ n. (ghosts_of S.Source).most self.new + n ≤ (ghosts_of S.Source).most self.old) }
        ensures goes { OnOk result (Goes (ghosts_of S.Source) self.old self.new) }
        ensures fails { OnErr result (Fails (ghosts_of S.Source) (λ coming. coming ≡ []) self.old self.new) }
    {
        if self.lead_at < self.lead_end {
            let count = give_part(&self.lead, self.lead_at, self.lead_end, buf);
            self.lead_at += count;
            return Ok(count);
        }
        if self.body_at < self.body_end {
            let count = give_part(&self.body, self.body_at, self.body_end, buf);
            self.body_at += count;
            return Ok(count);
        }
        self.source.pull(buf)
    }

    /// Reads a page if nothing is held and one may come.
    ///
    /// # Errors
    /// That of the other source.
    fn start(&mut self) -> io::Result<()>
        ensures some { OnOk result (HasNext self.new) }
        ensures bytes { OnOk result (KeepsComing (ghosts_of S.Source) self.old self.new) }
        ensures goes { OnOk result (Goes (ghosts_of S.Source) self.old self.new) }
        ensures fails { OnErr result (Fails (ghosts_of S.Source) (λ coming. coming ≡ []) self.old self.new) }
    {
        if self.plain || self.lead_at < self.lead_end || self.body_at < self.body_end {
            return Ok(());
        }
        match self.read_next() {
            Ok(()) => Ok(()),
            Err(error) => Err(error),
        }
    }
}

impl<S: Source> Source for Trimmed<S> {
    ghost use Rattle.flac_around.specs.Trimming.{ghosts_of};

    ghost known = { λ b. (ghosts_of S.Source).known b };

    ghost coming = { λ b. (ghosts_of S.Source).coming b };

    ghost after = { λ b. (ghosts_of S.Source).after b };

    ghost errors = { λ b. (ghosts_of S.Source).errors b };

    ghost raised = { λ b. (ghosts_of S.Source).raised b };

    ghost most = { λ b. (ghosts_of S.Source).most b };

    ghost names = { λ b. (ghosts_of S.Source).names b };

    fn pull(&mut self, buf: &mut [u8]) -> io::Result<usize> {
        if buf.is_empty() {
            return Ok(0);
        }
        match self.start() {
            Ok(()) => {}
            Err(error) => return Err(error),
        }
        match self.give(buf) {
            Ok(count) => Ok(count),
            Err(error) => Err(error),
        }
    }
}
