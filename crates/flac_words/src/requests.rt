//! What the commands ask for with their arguments.

use crate::no_request::NoRequest;
use crate::usage::decode::{asks_excerpt, decode_request, excerpt_request, refusal_of_excerpt};
use crate::usage::edit::{edit_request, refusal_of_editing};
use crate::usage::encode::encode_request;
use crate::usage::export::{export_request, refusal_of_exporting};
use crate::usage::list::{list_request, refusal_of_listing};
use crate::usage::recode::{copy_request, recode_request, refusal_of_recoding};
use crate::usage::retag::retag_request;
use crate::usage::salvage::salvage_request;
use crate::usage::same::{refusal_of_comparison, same_request};
use crate::usage::tag::{refusal_of_tagging, tag_request};
use crate::usage::test::test_request;
use crate::usage::verify::{refusal_of_verification, verify_request};
use clap::ArgMatches;
use flac_jobs::{ContainerKind, Job, Request};
use std::alloc::Global;

/// What a command asks for with its arguments.
///
/// # Errors
/// Why it asks for nothing.
pub(crate) fn request_of<'a>(
    alloc: Global,
    name: &str,
    given: &ArgMatches<'a>,
) -> Result<Request<'a>, NoRequest<'a>> {
    match name {
        "test" => test_request(given),
        "decode" if asks_excerpt(given) => excerpt_request(given),
        "decode" => decode_request(given),
        "list" => list_request(alloc, given),
        "retag" => retag_request(alloc, given),
        "tag" => tag_request(alloc, given),
        "edit" => edit_request(alloc, given),
        "export" => export_request(given),
        "verify" => verify_request(alloc, given),
        "same" => same_request(given),
        "recode" if given.get_flag("copy") => copy_request(given),
        "recode" => recode_request(given),
        "salvage" => salvage_request(given),
        _ => encode_request(alloc, given),
    }
}

/// Why a request is refused whose words were all read: a line; `None` if it is not.
pub(crate) fn refusal_of(request: &Request<'_>) -> Option<&'static str> {
    match request {
        Request::Job(line) => refusal_of_job(&line.job),
        Request::ListFiles(listing) => refusal_of_listing(listing),
        Request::Tag(tagging) => refusal_of_tagging(tagging),
        Request::Verify(verification) => refusal_of_verification(verification),
        Request::Edit(editing) => refusal_of_editing(editing),
        Request::Export(exporting) => refusal_of_exporting(exporting),
        Request::Same(comparison) => refusal_of_comparison(comparison),
        Request::Recode(recoding) => refusal_of_recoding(recoding),
        Request::Excerpt(excerpt) => refusal_of_excerpt(excerpt),
        Request::Copy(_) | Request::Salvage(_) => None,
    }
}

/// Why a job is refused whose words were all read: a line; `None` if it is not.
fn refusal_of_job(job: &Job<'_>) -> Option<&'static str> {
    if lacks_equals(job) {
        return Some("flac: command: comment without =\n");
    }
    if has_table_in_ogg(job) {
        return Some("flac: command: --ogg with --seek-every\n");
    }
    None
}

/// The path of the file that a job of a stream writes, if it has the form of a comment.
pub(crate) fn path_like_comment<'a>(request: &Request<'a>) -> Option<&'a str> {
    let Request::Job(line) = request else {
        return None;
    };
    match &line.job {
        Job::Encode { output, .. } | Job::EncodeWave { output, .. } | Job::Retag { output, .. }
            if is_comment(output) => { Some(output) }
        _ => None,
    }
}

/// Whether a path has the form of a comment, NAME=VALUE, without a folder before its `=`.
pub(crate) fn is_comment(path: &str) -> bool {
    match path.split_once('=') {
        Some((name, _)) => !name.contains('/'),
        None => false,
    }
}

/// Whether a comment of the job has no `=`.
fn lacks_equals(job: &Job<'_>) -> bool {
    match job {
        Job::Encode { comments, .. }
        | Job::EncodeWave { comments, .. }
        | Job::Retag { comments, .. } => { !comments.iter().all(|word| word.contains('=')) }
        _ => false,
    }
}

/// Whether the job asks for a seek table in an Ogg stream.
fn has_table_in_ogg(job: &Job<'_>) -> bool {
    match job {
        Job::Encode {
            format,
            container,
            ..
        } => format.seek_every != 0 && *container != ContainerKind::Native,
        Job::EncodeWave {
            seek_every,
            container,
            ..
        } => *seek_every != 0 && *container != ContainerKind::Native,
        _ => false,
    }
}
