//! The pages of a stream, one after another, and the position in the current page.

ghost use Rattle.std.specs.Prelude.{◌≡◌, ◌≢◌, [], ◌≤◌, ◌<◌, ◌+◌, true, false, length, IfOk, IfErr, IfSome, None};
ghost use Rattle.flac_pages.specs.Pages.{unless_over, end_fault};
ghost use Rattle.flac_pages.specs.Page.{went_on, goes_on_after};
ghost use Rattle.flac_pages.specs.Items.{HasItsPage};
ghost use Rattle.flac_pages.specs.inner.Items.{EndsPacket};
ghost use Rattle.flac_pages.specs.Packets.{at_front_of, Met, Begins};
ghost use Rattle.flac_pages.specs.inner.Reading.{IfKnown, StaysCalm};
ghost use Rattle.flac_pages.specs.inner.Packets.{next_segment, Turns, Steps, Finds, Copies, ended};

use crate::page::{Before, PacketFault, PageFault};
use crate::page_buffer::{PageBuffer, next_page_by_layout};
use flac_bits::{BitReader, Source, Why};
use std::alloc::Global;
use std::marker::Model;

/// Reads the pages of an Ogg stream one after another, and gives its packets: [`Pages::next_packet`] begins each, and
/// [`crate::read_packet`] or [`crate::PacketBytes`] reads it (RFC 3533, section 6). It holds one page.
///
/// A page is read when its first byte or its lacing values are needed.
#[derive(Drop)]
pub struct Pages<R: Source> {
    reader: BitReader<R>,
    page: PageBuffer,
    before: Option<Before>,
    /// Whether the page is marked last.
    last: bool,
    /// How many lacing values of the page were taken.
    next: u8,
    /// How many bytes of the page were taken.
    at: u32,
    /// How many bytes of the segment are left.
    rest: u8,
    /// Whether the packet goes on after the segment.
    more: bool,
    /// How many pages were read.
    count: u64,
}

impl<R: Source> Model for Pages<R> {
    ghost use Rattle.std.specs.Prelude.{◌≡◌, ◌≤◌, ◌+◌, drop, length};
    ghost use Rattle.std.specs.List.{sum};
    ghost use Rattle.flac_pages.specs.Packets.{Place};

    ghost Value = { Place };

    ghost view = { λ p. record {
      known = p.reader.known;
      errors = p.reader.errors;
      raised = p.reader.raised;
      most = p.reader.most;
      names = p.reader.names;
      rest = p.rest;
      more = p.more;
      lacing = drop p.next p.page.lacing;
      body = drop p.at p.page.body;
      last = p.last;
      before = p.before;
      count = p.count;
      cursor = p.reader.cursor;
    } };

    ghost invariant = { λ p. (p.next ≤ length p.page.lacing) × (length p.page.body ≤ 65025)
        × (p.at + p.rest + sum (drop p.next p.page.lacing) ≡ length p.page.body) × (length p.page.lacing ≤ 255) };
}

impl<R: Source + Drop> Pages<R> {
    /// Makes a reader of the pages of a source, from its first byte on. It allocates 65025 bytes, the most that the
    /// segments of a page can have.
    ///
    /// ```
    /// let mut pages = Pages::new(rt.alloc(), Memory::new(&stream))?;
    /// let mut first = [0; 51]; // the first packet of FLAC in Ogg has 51 bytes
    /// let outcome = match pages.next_packet() {
    ///     Ok(true) => read_packet(&mut pages, &mut first),
    ///     Ok(false) => Ok(()), // there is no packet
    ///     Err((page, why)) => Err((Some(page), why)),
    /// };
    /// ```
    ///
    /// # Errors
    /// [`Why::Memory`] if the allocation fails.
    pub fn new(alloc: Global, source: R) -> Result<Pages<R>, Why>
        ensures ok { IfOk result (λ p. p ≡ at_front_of R.Source source) }
        ensures err { IfErr result (λ e. e ≡ Why.Memory) }
    {
        let page = PageBuffer::new(alloc)?;
        Ok(Pages::over(page, source))
    }
}

impl<R: Source> Pages<R> {
    /// Makes a reader of the pages of a source, from its first byte on, with this room for one page, which must be
    /// empty.
    pub fn over(page: PageBuffer, source: R) -> Pages<R>
        requires { (page.lacing ≡ []) × (page.body ≡ []) }
        ensures { result ≡ at_front_of R.Source source }
    {
        Pages {
            reader: BitReader::new(source),
            page,
            before: None,
            last: false,
            next: 0,
            at: 0,
            rest: 0,
            more: false,
            count: 0,
        }
    }
}

impl<R: Source> Pages<R> {
    /// Whether no lacing value of the page is left.
    fn is_read(&self) -> bool
        ensures none { result ≡ true → self.now.lacing ≡ [] }
        ensures some { result ≡ false → 0 < length self.now.lacing }
    {
        self.next == self.page.count()
    }

    /// Whether the current page is marked last.
    pub fn is_last(&self) -> bool
        ensures { result ≡ self.now.last }
    {
        self.last
    }

    /// Whether the packet goes on after the segment.
    fn goes_on(&self) -> bool
        ensures { result ≡ self.now.more }
    {
        self.more
    }

    /// How many bytes of the segment are left.
    fn rest(&self) -> u8
        ensures { result ≡ self.now.rest }
    {
        self.rest
    }

    /// Returns the source. The current page is lost, and so are bytes after it that were pulled already.
    pub fn into_source(self) -> R
        ensures known { self.known ≡ true → R.known result ≡ true }
        ensures errors { R.errors result ≡ self.errors }
        ensures raised { R.raised result ≡ self.raised }
        ensures names { R.names result ≡ self.names }
    {
        let Pages { reader, .. } = self;
        reader.into_source()
    }

    /// How many pages were read, at most 2^64 - 1.
    pub fn count(&self) -> u64
        ensures { result ≡ self.now.count }
    {
        self.count
    }

    /// Goes into the next segment of the page.
    fn take_segment(&mut self)
        requires rest { self.now.rest ≡ 0 }
        requires some { 0 < length self.now.lacing }
        ensures { self.new ≡ next_segment self.old self.old.lacing }
    {
        let value = self.page.segment(self.next);
        self.next += 1;
        self.rest = value;
        self.more = value == 255;
    }

    /// Reads the next page.
    fn turn(&mut self) -> Result<(), Why>
        requires rest { self.now.rest ≡ 0 }
        requires read { self.now.lacing ≡ [] }
        requires last { self.now.last ≡ false }
        ensures memory { IfErr result (λ e. e ≢ Why.Memory) }
        ensures turns { Turns self.old self.new result }
    {
        let went_on = went_on(self.before);
        match next_page_by_layout(&mut self.reader, &mut self.page, self.before) {
            Ok(()) => {
                let head = self.page.head();
                let goes_on = goes_on_after(went_on, self.page.lacing());
                self.before = Some(Before {
                    serial: head.serial,
                    sequence: head.sequence,
                    goes_on,
                });
                self.last = head.is_last();
                self.next = 0;
                self.at = 0;
                self.count = self.count.saturating_add(1);
                Ok(())
            }
            Err(why) => {
                self.next = 0;
                self.at = 0;
                Err(why)
            }
        }
    }

    /// Goes to the packet's next segment, or reads the next page; false at the end of the packet or of the last page.
    fn step(&mut self) -> Result<bool, Why>
        requires { self.now.rest ≡ 0 }
        ensures memory { IfErr result (λ e. e ≢ Why.Memory) }
        ensures steps { Steps self.old self.new result }
    {
        if !self.goes_on() {
            return Ok(false);
        }
        if !self.is_read() {
            self.take_segment();
            return Ok(true);
        }
        if self.is_last() {
            return Ok(false);
        }
        match self.turn() {
            Ok(()) => Ok(true),
            Err(why) => Err(why),
        }
    }

    /// Goes to the packet's next byte; false at the end of the packet or of the last page.
    pub(crate) fn find(&mut self) -> Result<bool, Why>
        ensures memory { IfErr result (λ e. e ≢ Why.Memory) }
        ensures finds { Finds self.old self.new result }
    {
        while self.rest() == 0 {
            match self.step() {
                Ok(true) => {}
                Ok(false) => return Ok(false),
                Err(why) => return Err(why),
            }
        }
        Ok(true)
    }

    /// Goes to the packet's next byte, if the page has it.
    #[tactic(auto, using(crate::proofs::Stepping::copies_none))]
    fn has_byte(&mut self) -> bool
        ensures same { Copies self.old self.new [] 0 }
        ensures byte { result ≡ true → 0 < self.new.rest }
        ensures none { 0 < self.old.rest → result ≡ true }
    {
        if self.rest() > 0 {
            return true;
        }
        if !self.goes_on() || self.is_read() {
            return false;
        }
        self.take_segment();
        self.rest() > 0
    }

    /// Copies bytes of the packet to the front of `out`, as many as the page has and as fit, and returns how many.
    pub(crate) fn copy_in_page(&mut self, out: &mut [u8]) -> usize
        ensures few { result ≤ length out.old }
        ensures some { 0 < length out.old → 0 < self.old.rest → 0 < result }
        ensures copies { Copies self.old self.new out.new result }
    {
        let mut done = 0;
        while done < out.len() && self.has_byte() {
            done += self.copy(&mut out[done..]);
        }
        done
    }

    /// Copies bytes of the segment to the front of `out`, as many as fit, and returns how many.
    pub(crate) fn copy(&mut self, out: &mut [u8]) -> usize
        ensures few { result ≤ length out.old }
        ensures some { 0 < length out.old → 0 < self.old.rest → 0 < result }
        ensures copies { Copies self.old self.new out.new result }
    {
        let n = (self.rest as usize).min(out.len());
        let at = self.at as usize;
        out[..n].copy_from_slice(&self.page.body()[at..at + n]);
        self.at += n as u32;
        self.rest -= n as u8;
        n
    }

    /// Whether the reader is between two packets: none was begun, or the last one was read to its end.
    pub fn is_between_packets(&self) -> bool
        ensures between { result ≡ true → (self.now.rest ≡ 0) × (self.now.more ≡ false) }
        ensures exact { self.now.rest ≡ 0 → self.now.more ≡ false → result ≡ true }
    {
        self.rest == 0 && !self.more
    }

    /// Goes to the end of the packet that was begun, over the bytes that are left of it.
    ///
    /// # Errors
    /// If a refused page breaks the packet off, the number of pages before that page, and its error.
    /// [`Why::PacketLength`] if the packet is still open at the end of the last page.
    pub(crate) fn end_packet(&mut self) -> Result<(), PacketFault>
        ensures memory { IfErr result (λ e. e.1 ≢ Why.Memory) }
        ensures page { IfErr result (λ e. HasItsPage self.new.count e) }
        ensures ends { EndsPacket self.old self.new result }
    {
        loop {
            match self.find() {
                Ok(true) => {
                    let _passed = self.copy(&mut [0; 255]);
                }
                Ok(false) => {
                    if self.is_between_packets() {
                        return Ok(());
                    }
                    return Err((None, Why::PacketLength));
                }
                Err(why) => return Err((Some(self.count()), why)),
            }
        }
    }

    /// Begins a packet.
    fn begin(&mut self)
        ensures { self.new ≡ record self.old { more = true } }
    {
        self.more = true;
    }

    /// What comes after the last page: false if the input ends there.
    fn end(&mut self) -> Result<bool, PageFault>
        requires read { self.now.lacing ≡ [] }
        requires last { self.now.last ≡ true }
        ensures memory { IfErr result (λ e. e.1 ≢ Why.Memory) }
        ensures page { IfErr result (λ e. e.0 ≡ self.new.count) }
        ensures begins { Begins self.old self.new result }
    {
        let fault = end_fault(&mut self.reader);
        ended(self.count, fault)
    }

    /// Begins the next packet, whose bytes [`crate::PacketBytes`] gives. False if there is none: the last page was
    /// read, and the input ends after it. The packet before must have been read to its end (see
    /// [`Pages::is_between_packets`]).
    ///
    /// # Errors
    /// The number of pages before the one that is refused, and its error: those of [`crate::next_page`], and
    /// [`Why::PageOrder`] for a byte after the last page.
    #[tactic(auto, using(crate::proofs::Exits::waits_begins, crate::proofs::Exits::waits_turned, crate::proofs::Exits::waits_refused, crate::proofs::Exits::waits_begun))]
    pub fn next_packet(&mut self) -> Result<bool, PageFault>
        requires { (self.now.rest ≡ 0) × (self.now.more ≡ false) }
        ensures memory { IfErr result (λ e. e.1 ≢ Why.Memory) }
        ensures page { IfErr result (λ e. e.0 ≡ self.new.count) }
        ensures begins { Begins self.old self.new result }
    {
        while self.is_read() {
            if self.is_last() {
                return self.end();
            }
            if let Err(why) = self.turn() {
                return Err((self.count(), why));
            }
        }
        self.begin();
        Ok(true)
    }
}

/// The end of the input is no error here.
fn unless_over(why: Why) -> Option<Why>
    ensures value { result ≡ unless_over why }
    ensures memory { why ≢ Why.Memory → IfSome result (λ e. e ≢ Why.Memory) }
{
    match why {
        Why::Truncated => None,
        other => Some(other),
    }
}

/// The error after the last page: that of any byte there, or of the source in place of the end.
fn end_fault<R: Source>(reader: &mut BitReader<R>) -> Option<Why>
    ensures kept { reader.old.errors ≤ reader.new.errors }
    ensures names { reader.new.names ≡ reader.old.names }
    ensures memory { IfSome result (λ e. e ≢ Why.Memory) }
    ensures calm { result ≡ None → StaysCalm reader.old reader.new }
    ensures met { IfSome result (λ e. Met e reader.old.raised reader.new.raised) }
    ensures fault { IfKnown reader.old reader.new (result ≡ end_fault reader.old.cursor) }
{
    match reader.at_end() {
        Ok(true) => unless_over(reader.short()),
        Ok(false) => Some(Why::PageOrder),
        Err(why) => Some(why),
    }
}

/// What [`Pages::next_packet`] returns after the last page.
fn ended(count: u64, fault: Option<Why>) -> Result<bool, PageFault>
    ensures value { result ≡ ended count fault }
    ensures memory { IfSome fault (λ e. e ≢ Why.Memory) → IfErr result (λ e. e.1 ≢ Why.Memory) }
    ensures page { IfErr result (λ e. e.0 ≡ count) }
{
    match fault {
        None => Ok(false),
        Some(why) => Err((count, why)),
    }
}

/// Whether a packet goes on after the pages before.
fn went_on(before: Option<Before>) -> bool
    ensures { result ≡ went_on before }
{
    match before {
        Some(before) => before.goes_on,
        None => false,
    }
}

/// Whether a packet goes on after these segments.
fn goes_on_after(before: bool, lacing: &[u8]) -> bool
    ensures { result ≡ goes_on_after before lacing.now }
{
    let mut goes_on = before;
    for i in 0..lacing.len() {
        goes_on = lacing[i] == 255;
    }
    goes_on
}
