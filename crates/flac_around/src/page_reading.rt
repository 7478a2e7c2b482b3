//! Reads a page of a source, to be held.

ghost use Rattle.std.specs.Prelude.{◌≡◌, ◌≤◌, ◌+◌, Bool, true, false, eqb, [], length, take, drop, IfOk, OnOk, OnErr};
ghost use Rattle.std.specs.List.{starts_with};
ghost use Rattle.flac_around.specs.EmptyPackets.{begins_page, is_cut, check_of};
ghost use Rattle.flac_around.specs.inner.Pages.{IsLead, IsPlainHere, IsPlainAfter, IsCutAfter, TakesBody, GivesRead, TakesRead, page_of};
ghost use Rattle.flac_around.specs.inner.Pulling.{Goes, Fails, Gives, GivesBoth, GivesAfter};

use crate::filling::fill;
use crate::page_parts::{FIELDS, HEAD, begins_page, checksum, total};
use flac_bits::Source;
use std::io;

/// What was read of the bytes before the segments of a page.
#[derive(Clone, Copy)]
pub(crate) struct LeadRead {
    /// How many bytes are held.
    pub(crate) end: usize,
    /// Whether they are all bytes before the segments of a page.
    pub(crate) is_whole: bool,
}

/// What was read of a page.
#[derive(Clone, Copy)]
pub(crate) struct PageRead {
    /// How many bytes before the segments are held.
    pub(crate) lead: usize,
    /// How many bytes of the segments.
    pub(crate) body: usize,
    /// Whether they are a page, whose checksum is right.
    pub(crate) is_page: bool,
}

/// Reads the lacing values of a page, of which `lead` has the 27 bytes before them: fewer if the source ends.
fn read_lacing<S: Source>(source: &mut S, lead: &mut [u8]) -> io::Result<LeadRead>
    requires room { length lead.old ≡ 282 }
    requires begins { begins_page (take 27 lead.old) ≡ true }
    ensures most { IfOk result (λ r. r.end ≤ 282) }
    ensures bytes { IfOk result (λ r.
        GivesAfter S.Source source.old source.new (take 27 lead.old) (take r.end lead.new)) }
    ensures whole { IfOk result (λ r. r.is_whole ≡ true → IsLead (take r.end lead.new)) }
    ensures part { IfOk result (λ r. r.is_whole ≡ false → IsPlainAfter S.Source source.old (take 27 lead.old)) }
    ensures count { IfOk result (λ r. S.most source.new + r.end ≤ S.most source.old + 27) }
    ensures goes { OnOk result (Goes S.Source source.old source.new) }
    ensures fails { OnErr result (Fails S.Source (IsCutAfter (take 27 lead.old)) source.old source.new) }
{
    let count = usize::from(lead[HEAD - 1]);
    let more = match fill(source, &mut lead[HEAD..], 0, count) {
        Ok(more) => more,
        Err(error) => return Err(error),
    };
    let end = HEAD + more;
    if more < count {
        return Ok(LeadRead {
            end,
            is_whole: false,
        });
    }
    Ok(LeadRead {
        end,
        is_whole: true,
    })
}

/// Reads the bytes before the segments of a page: fewer if there is no page.
fn read_lead<S: Source>(source: &mut S, lead: &mut [u8]) -> io::Result<LeadRead>
    requires { length lead.old ≡ 282 }
    ensures most { IfOk result (λ r. r.end ≤ 282) }
    ensures bytes { IfOk result (λ r. Gives S.Source source.old source.new (take r.end lead.new)) }
    ensures whole { IfOk result (λ r. r.is_whole ≡ true → IsLead (take r.end lead.new)) }
    ensures part { IfOk result (λ r. r.is_whole ≡ false → IsPlainHere S.Source source.old) }
    ensures count { IfOk result (λ r. S.most source.new + r.end ≤ S.most source.old) }
    ensures goes { OnOk result (Goes S.Source source.old source.new) }
    ensures fails { OnErr result (Fails S.Source (λ coming. is_cut coming ≡ true) source.old source.new) }
{
    let end = match fill(source, lead, 0, HEAD) {
        Ok(end) => end,
        Err(error) => return Err(error),
    };
    if end < HEAD {
        return Ok(LeadRead {
            end,
            is_whole: false,
        });
    }
    if begins_page(&lead[..HEAD]) {
        return read_lacing(source, lead);
    }
    Ok(LeadRead {
        end: HEAD,
        is_whole: false,
    })
}

/// Whether the checksum of a page is right. `lead` has the page's bytes before the segments.
fn is_right(lead: &[u8], body: &[u8]) -> bool
    requires least { 27 ≤ length lead.now }
    requires most { length lead.now ≤ 282 }
    ensures { result ≡ starts_with eqb (take 4 (drop 22 lead.now)) (check_of (page_of lead.now body.now)) }
{
    let check = checksum(lead, body).to_le_bytes();
    lead[FIELDS..FIELDS + 4].starts_with(&check)
}

/// What was read of the segments of a page.
#[derive(Clone, Copy)]
pub(crate) struct BodyRead {
    /// How many bytes are held.
    end: usize,
    /// Whether they are all, and the checksum of the page is right.
    is_page: bool,
}

/// Reads the segments of a page, whose bytes before them are `lead`.
fn read_body<S: Source>(source: &mut S, lead: &[u8], body: &mut [u8]) -> io::Result<BodyRead>
    requires is_lead { IsLead lead.now }
    requires few { length lead.now ≤ 282 }
    requires room { length body.old ≡ 65025 }
    ensures most { IfOk result (λ r. r.end ≤ 65025) }
    ensures bytes { IfOk result (λ r. Gives S.Source source.old source.new (take r.end body.new)) }
    ensures page { IfOk result (TakesBody S.Source source.old source.new lead.now body.new) }
    ensures part { IfOk result (λ r. r.is_page ≡ false → IsPlainAfter S.Source source.old lead.now) }
    ensures count { IfOk result (λ r. S.most source.new + r.end ≤ S.most source.old) }
    ensures goes { OnOk result (Goes S.Source source.old source.new) }
    ensures fails { OnErr result (Fails S.Source (IsCutAfter lead.now) source.old source.new) }
{
    let most = total(&lead[HEAD..]);
    let end = match fill(source, body, 0, most) {
        Ok(end) => end,
        Err(error) => return Err(error),
    };
    if end < most {
        return Ok(BodyRead {
            end,
            is_page: false,
        });
    }
    let is_page = is_right(lead, &body[..end]);
    Ok(BodyRead { end, is_page })
}

/// Reads a page: `lead` has room for the bytes before the segments, and `body` for those of the segments. If no page is
/// at the start, some of the bytes are held that are there.
///
/// # Errors
/// That of the source.
pub(crate) fn read_page<S: Source>(
    source: &mut S,
    lead: &mut [u8],
    body: &mut [u8],
) -> io::Result<PageRead>
    requires lead { length lead.old ≡ 282 }
    requires body { length body.old ≡ 65025 }
    ensures lead { IfOk result (λ r. r.lead ≤ 282) }
    ensures body { IfOk result (λ r. r.body ≤ 65025) }
    ensures bytes { IfOk result (GivesRead S.Source source.old source.new lead.new body.new) }
    ensures whole { IfOk result (λ r. r.is_page ≡ true → IsLead (take r.lead lead.new)) }
    ensures page { IfOk result (TakesRead S.Source source.old source.new lead.new body.new) }
    ensures part { IfOk result (λ r. r.is_page ≡ false → IsPlainHere S.Source source.old) }
    ensures count { IfOk result (λ r. S.most source.new + (r.lead + r.body) ≤ S.most source.old) }
    ensures goes { OnOk result (Goes S.Source source.old source.new) }
    ensures fails { OnErr result (Fails S.Source (λ coming. is_cut coming ≡ true) source.old source.new) }
{
    let front = match read_lead(source, lead) {
        Ok(front) => front,
        Err(error) => return Err(error),
    };
    if !front.is_whole {
        return Ok(PageRead {
            lead: front.end,
            body: 0,
            is_page: false,
        });
    }
    match read_body(source, &lead[..front.end], body) {
        Ok(read) => Ok(PageRead {
            lead: front.end,
            body: read.end,
            is_page: read.is_page,
        }),
        Err(error) => Err(error),
    }
}
