//! The lines of the report of `flac verify`.

ghost use Rattle.std.specs.Prelude.{◌≡◌, Some, codes};
ghost use Rattle.flac_json.specs.Json.{number, text, truth};
ghost use Rattle.flac_report.specs.Objects.{valued, counted};
ghost use Rattle.flac_report.specs.Entries.{container_member, digest_member, subset_member, id3_member};
ghost use Rattle.flac_cli.specs.Objects.{member_of};
ghost use Rattle.flac_cli.specs.Reported.{container_in, rate_of, channels_of, depth_of, several, number_of_stream, subset_of, index_of, name_of};
ghost use Rattle.flac_cli.specs.declared.verify.Finding.TheVariants.{Good, Bad, Unopened};
ghost use Rattle.flac_cli.specs.inner.Objects.{given_member};
ghost use Rattle.flac_cli.specs.inner.Reported.{EntrySent, entry_text};
ghost use Rattle.flac_cli.specs.inner.Verifying.{IsEntered};

use crate::json::{Member, Value, write_object};
use crate::verify::Finding;
use crate::verify_facts::{Facts, Flaw};
use flac_bits::{Target, Why};
use flac_meta::StreamInfo;
use flac_native::Place;
use flac_shelf::Stamp;

/// What the line of a file says beside what it was found to be.
#[derive(Clone, Copy)]
pub(crate) struct Entry<'a> {
    pub(crate) path: &'a str,
    pub(crate) stamp: Stamp,
    /// Whether it was looked for that the stream is in the streamable subset.
    pub(crate) is_sought: bool,
    /// Whether tags of other programs are around the stream, if that was looked for.
    pub(crate) tagged: Option<bool>,
}

/// A member whose value is a text.
fn text_member<'a>(name: &'a str, value: &'a [u8]) -> Option<Member<'a>>
    ensures { given_member result ≡ valued name.now (text value.now) }
{
    Some(Member {
        name,
        value: Value::Text(value),
    })
}

/// A member whose value is a number; none if it is not known.
fn counted_member(name: &str, value: Option<u64>) -> Option<Member<'_>>
    ensures { given_member result ≡ counted name.now value }
{
    match value {
        Some(number) => Some(Member {
            name,
            value: Value::Number(number),
        }),
        None => None,
    }
}

/// A member whose value is a truth value.
fn truth_member(name: &str, holds: bool) -> Option<Member<'_>>
    ensures { given_member result ≡ valued name.now (truth holds) }
{
    Some(Member {
        name,
        value: Value::Truth(holds),
    })
}

/// The sample rate of STREAMINFO.
fn rate_of(info: Option<StreamInfo>) -> Option<u64>
    ensures { result ≡ rate_of info }
{
    match info {
        Some(info) => Some(u64::from(info.rate())),
        None => None,
    }
}

/// The number of channels of STREAMINFO.
fn channels_of(info: Option<StreamInfo>) -> Option<u64>
    ensures { result ≡ channels_of info }
{
    match info {
        Some(info) => Some(u64::from(info.channels())),
        None => None,
    }
}

/// The bits per sample of STREAMINFO.
fn depth_of(info: Option<StreamInfo>) -> Option<u64>
    ensures { result ≡ depth_of info }
{
    match info {
        Some(info) => Some(u64::from(info.depth())),
        None => None,
    }
}

/// The member of the digest, if it is stated.
fn md5_member(digest: &Option<[u8; 16]>) -> Option<Member<'_>>
    ensures { given_member result ≡ digest_member digest.now }
{
    match digest {
        Some(digest) => Some(Member {
            name: "md5",
            value: Value::Digits(digest),
        }),
        None => None,
    }
}

/// How many streams there are, if there is more than one.
fn several(streams: u64) -> Option<u64>
    ensures { result ≡ several streams }
{
    if streams > 1 {
        return Some(streams);
    }
    None
}

/// Which stream it is, counted from 1, if it is not the first.
fn number_of_stream(stream: u64) -> Option<u64>
    ensures { result ≡ number_of_stream stream }
{
    if stream == 0 {
        return None;
    }
    Some(stream.saturating_add(1))
}

/// The member of the streamable subset, if it was looked for.
fn subset_member(is_sought: bool, outside: bool) -> Option<Member<'static>>
    ensures { given_member result ≡ subset_member (subset_of is_sought outside) }
{
    if outside {
        return truth_member("subset", false);
    }
    if is_sought {
        return truth_member("subset", true);
    }
    None
}

/// The member of tags of other programs, if they were looked for.
fn id3_member(tagged: Option<bool>) -> Option<Member<'static>>
    ensures { given_member result ≡ id3_member tagged }
{
    match tagged {
        Some(tagged) => truth_member("id3", tagged),
        None => None,
    }
}

/// The member of the container.
fn container_member(is_ogg: bool) -> Option<Member<'static>>
    ensures { given_member result ≡ container_member (Some (container_in is_ogg)) }
{
    if is_ogg {
        return text_member("container", b"ogg");
    }
    text_member("container", b"native")
}

/// The member that each line begins with.
fn path_member(path: &str) -> Member<'_>
    ensures { member_of result ≡ record { name = codes "path"; value = text path.now } }
{
    Member {
        name: "path",
        value: Value::Text(path.as_bytes()),
    }
}

/// Sends the line of a stream.
fn write_good<P: Target>(report: &mut P, entry: &Entry<'_>, facts: &Facts) -> Result<(), Why>
    ensures { EntrySent P.Target entry.now (Good facts.now) report.old report.new result }
{
    let digest = facts.digest();
    let members = [
        text_member("status", b"ok"),
        container_member(facts.is_ogg),
        counted_member("bytes", entry.stamp.bytes),
        counted_member("modified", entry.stamp.modified),
        counted_member("nanoseconds", entry.stamp.nanoseconds),
        counted_member("rate", rate_of(facts.info)),
        counted_member("channels", channels_of(facts.info)),
        counted_member("depth", depth_of(facts.info)),
        counted_member("frames", Some(facts.counts.frames)),
        counted_member("samples", Some(facts.counts.samples)),
        md5_member(&digest),
        truth_member("md5_checked", !facts.no_digest),
        subset_member(entry.is_sought, facts.outside),
        id3_member(entry.tagged),
        counted_member("streams", several(facts.streams)),
    ];
    write_object(report, path_member(entry.path), &members)
}

/// The number of a block, a frame or a page.
fn index_of(place: Place) -> Option<u64>
    ensures { result ≡ index_of place }
{
    match place {
        Place::Block(index) => Some(index),
        Place::Frame(index) => Some(index),
        Place::Page(index) => Some(index),
        Place::Marker => None,
        Place::End => None,
    }
}

/// The name of a reason, without its number.
fn name_of(why: Why) -> &'static [u8]
    ensures { result.now ≡ name_of why }
{
    let text = why.as_str().as_bytes();
    let start = if why.number() < 10 { 2 } else { 3 };
    &text[text.len().min(start)..]
}

/// Sends the line of a file that is refused.
fn write_bad<P: Target>(report: &mut P, entry: &Entry<'_>, flaw: Flaw) -> Result<(), Why>
    ensures { EntrySent P.Target entry.now (Bad flaw) report.old report.new result }
{
    let Flaw {
        stream,
        fault,
        samples,
    } = flaw;
    let members = [
        text_member("status", b"bad"),
        counted_member("bytes", entry.stamp.bytes),
        counted_member("modified", entry.stamp.modified),
        counted_member("nanoseconds", entry.stamp.nanoseconds),
        text_member("place", fault.at.kind_name().as_bytes()),
        counted_member("index", index_of(fault.at)),
        counted_member("error", Some(u64::from(fault.why.number()))),
        text_member("name", name_of(fault.why)),
        counted_member("sample", Some(samples)),
        counted_member("stream", number_of_stream(stream)),
    ];
    write_object(report, path_member(entry.path), &members)
}

/// Sends the line of a file that cannot be opened.
fn write_unopened<P: Target>(report: &mut P, entry: &Entry<'_>) -> Result<(), Why>
    ensures { EntrySent P.Target entry.now Unopened report.old report.new result }
{
    let members = [
        text_member("status", b"unopened"),
        counted_member("bytes", entry.stamp.bytes),
        counted_member("modified", entry.stamp.modified),
        counted_member("nanoseconds", entry.stamp.nanoseconds),
    ];
    write_object(report, path_member(entry.path), &members)
}

/// Sends the line of a file.
///
/// # Errors
/// [`Why::Write`] if the target fails.
fn write_entry<P: Target>(report: &mut P, entry: &Entry<'_>, finding: &Finding) -> Result<(), Why>
    ensures { EntrySent P.Target entry.now finding.now report.old report.new result }
{
    match finding {
        Finding::Good(facts) => write_good(report, entry, facts),
        Finding::Bad(flaw) => write_bad(report, entry, *flaw),
        Finding::Unopened => write_unopened(report, entry),
    }
}

/// Adds the line of a file to the report, if the lines before were written. Returns whether it was written too.
pub(crate) fn enter<P: Target>(
    report: &mut P,
    entry: &Entry<'_>,
    finding: &Finding,
    is_going: bool,
) -> bool
    ensures { IsEntered P.Target is_going (entry_text entry.now finding.now) report.old report.new result }
{
    if is_going {
        return write_entry(report, entry, finding).is_ok();
    }
    false
}
