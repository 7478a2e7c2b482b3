//! WAV files: the chunks of RIFF, RF64 and BW64 files of PCM samples.
//!
//! [`wave_of`] takes a file apart, and [`cut`] divides what follows its samples into pieces. So a file is pieces of its
//! bytes and its samples, of which `restored` of the definitions makes the same file again, byte for byte.
//!
//! [`plain_pieces`] makes the pieces of a plain file, for samples of which no file is kept. Its format is one of
//! [`WaveFormat::plain`]. The file is `restored` of these pieces and the samples: the pieces up to the header of the
//! samples, the samples, a zero if their number of bytes is odd, unless an empty piece follows the header.
//!
//! A file may have more bits of a sample than count. [`WaveFormat::depth_of`] says how many bits a stream has of them.
//! [`lower`] makes the samples of a stream of those of a file, and [`raise`] those of a file again.
#![tactic(auto)]

mod chunks;
mod cuts;
mod format;
mod front;
mod laws;
mod limited;
mod plain;
mod reading;
mod seen;
mod shift;
mod unstated;
mod waves;
mod why;

pub use chunks::begins_wave;
pub use cuts::{cut, cut_after};
pub use format::WaveFormat;
pub use front::{WaveFront, front_fault, read_front};
pub use laws::{plain_files_are_read, samples_come_back, waves_are_read_once, waves_come_back};
pub use limited::Limited;
pub use plain::plain_pieces;
pub use reading::{fill, read_all, read_at_most};
pub use shift::{lower, raise};
pub use unstated::{is_unstated, size_in};
pub use waves::{Wave, WaveError, WaveFault, wave_of};
pub use why::WaveWhy;
