//! What damage left of a native stream: which samples are missing, and where (RFC 9639, section 9).
//!
//! | To | Begin with |
//! |---|---|
//! | find the frames that stand whole, and choose those that belong together | [`survey_bytes`] |
//! | know what is missing between them | [`gaps`] |
//! | print it | [`report`], [`tell_missing`] |
//! | print it with the places in a damaged Ogg stream | [`report_left`] |
//! | make samples of what is left | [`salvage_samples`] |
//! | make a seek table of a stream that is whole | [`seek_points`] |
#![tactic(auto)]

mod channels;
mod head;
mod lines;
mod missing;
mod placed;
mod points;
mod salvage;
mod survey;
mod tell;
mod texts;

pub use channels::{empty_channels, extend_channels};
pub use lines::report;
pub use missing::{Gap, gaps, others};
pub use placed::report_left;
pub use points::{PointsFault, seek_points};
pub use salvage::{MOST_SILENCE, SalvageFault, salvage_samples};
pub use survey::{Survey, SurveyFault, survey_bytes};
pub use tell::tell_missing;
