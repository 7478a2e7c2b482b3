//! The room that holds a page.

ghost use Rattle.std.specs.Prelude.{◌≡◌, ◌≢◌, ◌≤◌, ◌<◌, ◌+◌, [], length, take, get_or, vec_len, OnOk, IfOk, IfErr, IfSome, OnErr, false};
ghost use Rattle.std.specs.List.{sum};
ghost use Rattle.flac_bits.specs.Reasons.{of_output};
ghost use Rattle.flac_bits.specs.Layout.{bits as number, first_broken, run};
ghost use Rattle.flac_bits.specs.Lists.{list_of};
ghost use Rattle.flac_bits.specs.Reading.{Counts, Reads, CallInPlace};
ghost use Rattle.flac_pages.specs.Pages.{between, next_page};
ghost use Rattle.flac_pages.specs.Page.{IsWholePage, page_sum, page_after, end_rules};
ghost use Rattle.flac_pages.specs.Runs.{MeansPage};
ghost use Rattle.flac_pages.specs.inner.Reading.{GivesAnew, GivesPage};

use crate::fields::read_head;
use crate::page::{Before, Head, MOST_BODY};
use crate::writing::page_checksum;
use flac_bits::{BitReader, Source, Why, read_bytes, read_unchecked};
use std::alloc::Global;
use std::marker::Model;

/// Room for one page, which is allocated once: at most 255 segments of at most 255 bytes (RFC 3533, section 6).
#[derive(Drop)]
pub struct PageBuffer {
    head: Head,
    count: u8,
    lacing: [u8; 255],
    bytes: u32,
    body: Vec<u8>,
}

impl Model for PageBuffer {
    ghost use Rattle.std.specs.Prelude.{◌≡◌, ◌≤◌, length, take, vec_len};
    ghost use Rattle.flac_pages.specs.Page.{Page};

    ghost Value = { Page };

    ghost view = { λ p. record { head = p.head; lacing = take p.count p.lacing; body = take p.bytes p.body.items } };

    ghost invariant = { λ p. (vec_len p.body ≡ 65025) × (p.bytes ≤ 65025) × (length p.lacing ≡ 255) };
}

impl PageBuffer {
    /// Makes room that holds an empty page. It allocates 65025 bytes.
    ///
    /// # Errors
    /// [`Why::Memory`] if the allocation fails.
    pub fn new(alloc: Global) -> Result<PageBuffer, Why>
        ensures ok { IfOk result (λ p. (p.lacing ≡ []) × (p.body ≡ [])) }
        ensures err { IfErr result (λ e. e ≡ Why.Memory) }
    {
        let body = vec![in alloc; 0u8; MOST_BODY]?;
        Ok(PageBuffer {
            head: Head {
                flags: 0,
                granule: 0,
                serial: 0,
                sequence: 0,
                sum: 0,
            },
            count: 0,
            lacing: [0; 255],
            bytes: 0,
            body,
        })
    }

    /// The fixed fields of the page.
    pub fn head(&self) -> Head
        ensures { result ≡ self.now.head }
    {
        self.head
    }

    /// How many segments the page has.
    pub fn count(&self) -> u8
        ensures { result ≡ length self.now.lacing }
    {
        self.count
    }

    /// The lacing values: the length of each segment in bytes, at most 255 of them.
    pub fn lacing(&self) -> &[u8]
        ensures values { result.now ≡ self.now.lacing }
        ensures few { length result.now ≤ 255 }
    {
        &self.lacing[..self.count as usize]
    }

    /// The length of segment `index` in bytes, counted from 0. There must be such a segment.
    pub(crate) fn segment(&self, index: u8) -> u8
        requires { index < length self.now.lacing }
        ensures { result ≡ get_or self.now.lacing index 0 }
    {
        self.lacing()[index as usize]
    }

    /// The bytes of all segments, at most 65025.
    pub fn body(&self) -> &[u8]
        ensures bytes { result.now ≡ self.now.body }
        ensures small { length result.now ≤ 65025 }
    {
        &self.body.as_slice()[..self.bytes as usize]
    }

    /// The checksum that the page has to state (RFC 3533, section 6, field 7).
    fn sum(&self) -> u32
        ensures { result ≡ page_sum self.now }
    {
        page_checksum(self.head, self.lacing(), self.body())
    }

    /// The first rule that the page breaks at its end, in the order of their ranks.
    #[tactic(auto, unfolding(crate::specs::Page::end_rules))]
    fn fault(&self, before: Option<Before>) -> Option<Why>
        requires whole { length self.now.body ≡ sum self.now.lacing }
        ensures first { result ≡ first_broken (end_rules before self.now) }
        ensures kind { IfSome result (λ e. (e ≢ Why.Read) × (e ≢ Why.Memory) × (of_output e ≡ false)) }
    {
        let head = self.head;
        if head.sum != self.sum() {
            return Some(Why::PageCheck);
        }
        let first = head.is_first();
        let continued = head.is_continued();
        let count = self.count();
        let bytes = self.body().len();
        match before {
            None => {
                if continued {
                    return Some(Why::PageOrder);
                }
                if !first || count != 1 || bytes != 51 {
                    return Some(Why::BadMapping);
                }
            }
            Some(before) => {
                if head.serial != before.serial {
                    return Some(Why::OtherStream);
                }
                let next = before.sequence.wrapping_add(1);
                if first || head.sequence != next || continued != before.goes_on {
                    return Some(Why::PageOrder);
                }
            }
        }
        None
    }

    /// Reads a page after its first byte. After an error the room holds some page.
    fn read_after<R: Source>(
        &mut self,
        reader: &mut BitReader<R>,
        before: Option<Before>,
        first: u8,
    ) -> Result<(), Why>
        ensures reading { GivesPage self.new (run (page_after before first)) reader.old reader.new result }
        ensures whole { OnOk result (IsWholePage self.new) }
    {
        self.head = read_head(reader, first)?;
        self.count = reader.take(8)? as u8;
        read_some(reader, &mut self.lacing, self.count as usize)?;
        self.bytes = total(&self.lacing, self.count);
        read_body(reader, &mut self.body, self.bytes as usize)?;
        match self.fault(before) {
            Some(why) => Err(why),
            None => Ok(()),
        }
    }

    /// Holds an empty page.
    fn clear(&mut self)
        ensures { (self.new.lacing ≡ []) × (self.new.body ≡ []) }
    {
        self.count = 0;
        self.bytes = 0;
    }
}

/// The sum of the first `count` lacing values.
fn total(values: &[u8; 255], count: u8) -> u32
    ensures sum { result ≡ sum (take count values.now) }
    ensures small { result ≤ 65025 }
{
    let mut total = 0u32;
    for i in 0..count as usize {
        total += u32::from(values[i]);
    }
    total
}

/// Fills the first n bytes of `out` with the next bytes.
fn read_some<R: Source>(reader: &mut BitReader<R>, out: &mut [u8], n: usize) -> Result<(), Why>
    requires { n ≤ length out.now }
    ensures reading { CallInPlace n (Reads (λ _. take n out.new) (list_of n (number 8))) reader.old reader.new result }
{
    read_bytes(reader, &mut out[..n])
}

/// Fills the first n bytes of `out` with the next bytes, and restarts the checks after them.
fn read_unchecked_some<R: Source>(
    reader: &mut BitReader<R>,
    out: &mut [u8],
    n: usize,
) -> Result<(), Why>
    requires { n ≤ length out.now }
    ensures reading { GivesAnew n (take n out.new) (run (list_of n (number 8))) reader.old reader.new result }
{
    read_unchecked(reader, &mut out[..n])
}

/// Fills the first n bytes of a vector with the next bytes, and restarts the checks after them.
fn read_body<R: Source>(reader: &mut BitReader<R>, out: &mut Vec<u8>, n: usize) -> Result<(), Why>
    requires { n ≤ vec_len out.now }
    ensures room { vec_len out.new ≡ vec_len out.old }
    ensures reading { GivesAnew n (take n out.new.items) (run (list_of n (number 8))) reader.old reader.new result }
{
    read_unchecked_some(reader, out, n)
}

/// The error for an end of the input before a page: [`Why::NoEndPage`] in place of [`Why::Truncated`].
fn between(why: Why) -> Why
    ensures { result ≡ between why }
{
    match why {
        Why::Truncated => Why::NoEndPage,
        other => other,
    }
}

/// Reads the next page into the room (RFC 3533, section 6). `before` has what the page must agree with, `None` for the
/// first page. The checks of the reader restart after the page; none is computed of its bytes but its own checksum.
///
/// # Errors
/// The room then holds an empty page.
///
/// - [`Why::NoEndPage`] if the input ends before the page, [`Why::Truncated`] if it ends inside it.
/// - [`Why::BadPage`] if it does not begin with `OggS` and version 0.
/// - At the end of the page, the first of these that applies: [`Why::PageCheck`] if the checksum differs;
///   [`Why::OtherStream`] if the serial number differs; [`Why::PageOrder`] if the number or a flag does not follow from
///   the page before; [`Why::BadMapping`] if a first page is not marked first, or is not that of FLAC, with one packet
///   of 51 bytes (RFC 9639, section 10.1).
/// - [`Why::Read`] if the source fails.
pub fn next_page<R: Source>(
    reader: &mut BitReader<R>,
    room: &mut PageBuffer,
    before: Option<Before>,
) -> Result<(), Why>
    ensures spends { OnOk result (reader.new.most + 8 + length room.new.body ≤ reader.old.most) }
    ensures whole { OnOk result (IsWholePage room.new) }
    ensures cleared { OnErr result ((room.new.lacing ≡ []) × (room.new.body ≡ [])) }
    ensures counts { Counts reader.old reader.new result }
    ensures memory { IfErr result (λ e. e ≢ Why.Memory) }
    ensures means { MeansPage (λ _. room.new) before reader.old reader.new result }
{
    next_page_by_layout(reader, room, before)
}

/// What [`next_page`] does, proved by the reading of the layout.
#[tactic(auto, unfolding(crate::specs::Pages::next_page))]
pub(crate) fn next_page_by_layout<R: Source>(
    reader: &mut BitReader<R>,
    room: &mut PageBuffer,
    before: Option<Before>,
) -> Result<(), Why>
    ensures reading { GivesAnew (8 + length room.new.body) room.new (next_page before) reader.old reader.new result }
    ensures whole { OnOk result (IsWholePage room.new) }
    ensures cleared { OnErr result ((room.new.lacing ≡ []) × (room.new.body ≡ [])) }
{
    match reader.take(8) {
        Ok(first) => match room.read_after(reader, before, first as u8) {
            Ok(()) => Ok(()),
            Err(why) => {
                room.clear();
                Err(why)
            }
        },
        Err(why) => {
            room.clear();
            Err(between(why))
        }
    }
}
