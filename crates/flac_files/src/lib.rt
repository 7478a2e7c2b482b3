//! The files of a job of the program `flac`: what it reads, and what it writes to.
//!
//! What a system does with files cannot be claimed. So but for [`List::of`], [`may_replace`], [`read_picture`],
//! [`read_comment_lines`] and [`read_cue_sheet`] the calls of this library have few clauses: they are proved to be safe and to return. What the
//! program does with the bytes is stated by `flac_cli`.
#![tactic(auto)]

mod comment_lines;
mod cue_sheets;
mod files;
mod job_files;
mod list;
mod names;
mod older;
mod pictures;
mod progress;
mod replacement;
mod replacing;
mod report;
mod second_read;
mod shelf;
mod tag_files;
mod walk;

pub use comment_lines::{read_comment_lines, read_value};
pub use cue_sheets::read_cue_sheet;
pub use files::{Input, Known, Output};
pub use job_files::{Ending, FileRefused, JobFiles};
pub use list::List;
pub use older::{OlderRefused, read_older};
pub use pictures::read_picture;
pub use replacing::{may_replace, may_replace_recoded};
pub use report::{ReportFile, end_report};
pub use second_read::{SecondRead, reads_twice};
pub use shelf::FileShelf;
pub use tag_files::{FileDevice, NewFile, TagFile, is_ogg_at};
