//! Whole FLAC frames: reading them into buffers that lend their samples, and encoding samples as the shortest frame
//! (RFC 9639, section 9).
//!
//! | To | Begin with |
//! |---|---|
//! | read the frames of a stream | [`FrameBuffers::new`] and [`FrameBuffers::read_frame`] |
//! | use the samples of a frame | [`FrameView::channel`] and [`FrameView::interleave`] |
//! | encode a block as a frame | [`Audio::new`], [`EncodeBuffers::new`] and [`encode_frame`] |
//! | encode outside the streamable subset | [`Audio::new_in`] and [`EncodeBuffers::new_in`] |
//! | try linear predictors of one's own | [`encode_frame_with`] |
//! | try others for each plane | [`PlanePredictors`], [`encode_frame_by_plane`] |
//! | know a frame's size before it is written | [`choose_frame`], [`FrameChoice::frame_bytes`] and [`write_frame`] |
#![tactic(auto)]

mod audio;
mod before;
mod buffers;
mod channels;
mod encode;
mod encode_buffers;
mod end;
mod frame_choice;
mod frame_reading;
mod laws;
mod limits;
mod pair;
mod pair_choices;
mod plane;
mod plane_predictors;
mod planes;
mod samples;
mod setup;
mod shape;
mod start;
mod stereo;
mod subject;
mod view;

pub use audio::Audio;
pub use buffers::{FrameBuffers, LONGEST_FRAME};
pub use encode::{
    choose_frame, choose_frame_by_plane, encode_frame, encode_frame_by_plane, encode_frame_with,
    write_frame, write_frame_by_plane,
};
pub use encode_buffers::EncodeBuffers;
pub use frame_choice::FrameChoice;
pub use laws::{
    channels_are_joined, encodings_are_frames, forms_stand_for_samples, frame_family_is_plain,
    frame_family_with_is_plain, frame_planes_is_plain, frames_are_spelled, frames_follow,
};
pub use limits::greatest_order;
pub use plane_predictors::PlanePredictors;
pub use samples::{samples_fault, samples_fit};
pub use setup::{SetupFault, format_fault};
pub use view::FrameView;
