//! What the program `flac` can be asked for: a job or a listing of files, the format of raw samples, how far predictors
//! are sought, and why a command line is refused; and the kinds of files that may hold a song.
#![tactic(auto)]

mod comparisons;
mod copies;
mod editings;
mod excerpts;
mod exportings;
mod formats;
mod jobs;
mod kinds;
mod line_faults;
mod listings;
mod recodings;
mod requests;
mod salvages;
mod search_effort;
mod taggings;
mod verifications;

pub use comparisons::Comparison;
pub use copies::StreamCopy;
pub use editings::{BlockName, Editing, PictureForm, PictureWord};
pub use excerpts::{Excerpt, Moment};
pub use exportings::{ExportPart, Exporting};
pub use formats::{ContainerKind, RawFormat};
pub use jobs::{CommandLine, Job};
pub use kinds::{FileKind, file_kind};
pub use line_faults::LineFault;
pub use listings::Listing;
pub use recodings::Recoding;
pub use requests::Request;
pub use salvages::{Filling, Salvage};
pub use search_effort::SearchEffort;
pub use taggings::{TagEdit, TagMode, Tagging};
pub use verifications::Verification;
