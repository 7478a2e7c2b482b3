//! Where an Ogg stream ends, while its bytes pass.

ghost use Rattle.std.specs.Prelude.{◌≡◌, ◌≤◌, ◌<◌, ◌+◌, ◌/◌, ◌%◌, ◌++◌, nat_eq, true, [], length, take, drop, None, Some, IfSome, get_or};
ghost use Rattle.flac_around.specs.inner.Standing.{lead_size, is_open, Fits, StandsAfter, StandsIn};
ghost use Rattle.flac_around.specs.Chains.{is_marked_last};

use crate::page_parts::{HEAD, LEAD, begins_page, total};

/// Where the next byte of a stream is.
#[derive(Clone, Copy)]
pub(crate) enum Stand {
    /// At the start of a page, or before its segments.
    Lead,
    /// In its segments, of which so many bytes are left.
    Body { left: usize, is_last: bool },
    /// After the page that is marked last.
    Over,
    /// After bytes that are no page: the stream goes on to the end of the input.
    Plain,
}

/// How many bytes come before the segments of a page that begins with these, as far as they show it.
fn lead_size(seen: &[u8]) -> usize
    ensures value { result ≡ lead_size seen.now }
    ensures most { result ≤ 282 }
{
    if seen.len() < HEAD {
        return HEAD;
    }
    HEAD + usize::from(seen[HEAD - 1])
}

/// Whether a page that begins with these bytes is marked last.
fn is_marked_last(lead: &[u8]) -> bool
    requires { 27 ≤ length lead.now }
    ensures { result ≡ is_marked_last lead.now }
{
    lead[5] / 4 % 2 == 1
}

/// Where the next byte is if so many bytes of a page are left.
fn settled(left: usize, is_last: bool) -> Stand
    ensures stands { StandsIn left is_last result }
    ensures opens { is_open result [] ≡ true }
{
    if left > 0 {
        return Stand::Body { left, is_last };
    }
    if is_last { Stand::Over } else { Stand::Lead }
}

/// Where the next byte is after these of a page; `None` if they are not all that come before its segments.
fn look(seen: &[u8]) -> Option<Stand>
    requires { length seen.now ≤ lead_size seen.now }
    ensures part { result ≡ None → length seen.now < lead_size seen.now }
    ensures stands { IfSome result (StandsAfter seen.now) }
    ensures opens { IfSome result (λ stand. is_open stand [] ≡ true) }
{
    if seen.len() < HEAD {
        return None;
    }
    if !begins_page(seen) {
        return Some(Stand::Plain);
    }
    if seen.len() < lead_size(seen) {
        return None;
    }
    Some(settled(total(&seen[HEAD..]), is_marked_last(seen)))
}

/// Puts bytes of a page, which come before its segments, after the first `at` of them, and returns where they end.
fn put_lead(lead: &mut [u8], at: usize, bytes: &[u8]) -> usize
    requires room { length lead.old ≡ 282 }
    requires within { at ≤ 282 }
    requires fits { at + length bytes.now ≤ lead_size (take at lead.old) }
    ensures end { result ≡ at + length bytes.now }
    ensures few { result ≤ 282 }
    ensures held { take result lead.new ≡ take at lead.old ++ bytes.now }
{
    let _size = lead_size(&lead[..at]); // for its clauses alone
    let end = at + bytes.len();
    lead[at..end].copy_from_slice(bytes);
    end
}

/// Follows the pages of a stream, whose bytes pass.
#[derive(Drop)]
pub(crate) struct Walk {
    /// The bytes of a page before its segments that passed.
    lead: [u8; LEAD],
    at: usize,
    stand: Stand,
    ghost room: { at ≤ 282 },
    ghost open: { is_open stand (take at lead) ≡ true },
}

impl Walk {
    ghost use Rattle.flac_around.specs.Walks.{seen_by};
    ghost use Rattle.flac_around.specs.inner.Walking.{Passes};

    /// At the start of a stream.
    pub(crate) fn new() -> Walk
        ensures stand { result.stand ≡ Stand.Lead }
        ensures at { result.at ≡ 0 }
    {
        Walk {
            lead: [0; LEAD],
            at: 0,
            stand: Stand::Lead,
        }
    }

    /// How many bytes may pass at once, of `most`; 0 at the end of the stream.
    pub(crate) fn room(&self, most: usize) -> usize
        requires { 0 < most }
        ensures few { result ≤ most }
        ensures fits { Fits self.now.stand (seen_by self.now) result }
        ensures over { result ≡ 0 → self.now.stand ≡ Stand.Over }
    {
        match self.stand {
            Stand::Lead => most.min(lead_size(&self.lead[..self.at]) - self.at),
            Stand::Body { left, .. } => most.min(left),
            Stand::Over => 0,
            Stand::Plain => most,
        }
    }

    /// Lets bytes pass that come before the segments of a page.
    fn pass_lead(&mut self, bytes: &[u8])
        requires stand { self.old.stand ≡ Stand.Lead }
        requires fits { Fits self.old.stand (seen_by self.old) (length bytes.now) }
        ensures { Passes self.old self.new bytes.now }
    {
        let end = put_lead(&mut self.lead, self.at, bytes);
        match look(&self.lead[..end]) {
            Some(stand) => {
                self.at = 0;
                self.stand = stand;
            }
            None => self.at = end,
        }
    }

    /// Lets these bytes pass, for which there is room.
    pub(crate) fn pass(&mut self, bytes: &[u8])
        requires { Fits self.old.stand (seen_by self.old) (length bytes.now) }
        ensures { Passes self.old self.new bytes.now }
    {
        match self.stand {
            Stand::Lead => self.pass_lead(bytes),
            Stand::Body { left, is_last } => {
                self.at = 0;
                self.stand = settled(left - bytes.len(), is_last);
            }
            Stand::Over => {}
            Stand::Plain => {}
        }
    }
}
