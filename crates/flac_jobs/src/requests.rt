//! Requests: what a command line asks for.

use crate::comparisons::Comparison;
use crate::copies::StreamCopy;
use crate::editings::Editing;
use crate::excerpts::Excerpt;
use crate::exportings::Exporting;
use crate::jobs::CommandLine;
use crate::listings::Listing;
use crate::recodings::Recoding;
use crate::salvages::Salvage;
use crate::taggings::Tagging;
use crate::verifications::Verification;

/// What a command line asks for: a job over one stream, or a command over several files.
#[derive(Debug, Drop)]
pub enum Request<'a> {
    /// A job.
    Job(CommandLine<'a>),
    /// The metadata of several streams, or a part of it.
    ListFiles(Listing<'a>),
    /// Edits of the comments of files.
    Tag(Tagging<'a>),
    /// Edits of the metadata blocks of files.
    Edit(Editing<'a>),
    /// A part of the metadata of a stream.
    Export(Exporting<'a>),
    /// The files are verified.
    Verify(Verification<'a>),
    /// Two streams are compared.
    Same(Comparison<'a>),
    /// A stream is encoded anew.
    Recode(Recoding<'a>),
    /// The frames of a stream are copied to a new one.
    Copy(StreamCopy<'a>),
    /// A part of the samples of a stream is decoded.
    Excerpt(Excerpt<'a>),
    /// The whole frames of a damaged stream are encoded anew.
    Salvage(Salvage<'a>),
}
