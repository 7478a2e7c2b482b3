//! Reads frames, and keeps the bytes of each.

ghost use Rattle.std.specs.Prelude.{◌≡◌, true, is_some, OnOk, IfOk};
ghost use Rattle.flac_native.specs.Track.{stand_of, shown, ReadsPart};
ghost use Rattle.flac_native.specs.Stream.{framed};
ghost use Rattle.flac_copy.specs.Frames.{TakesFrame, PassesFrame, GivesFrame};

use crate::again::Again;
use flac_bits::{BitReader, Source, Why};
use flac_native::Track;

/// Reads the next frame of a reader that was just made. Returns how many bytes it has.
///
/// # Errors
/// Those of [`Track::next_frame`].
pub(crate) fn take_frame<R: Source>(
    reader: &mut BitReader<R>,
    track: &mut Track,
) -> Result<u64, Why>
    ensures taken { IfOk result (λ n. TakesFrame (stand_of track.old) (shown track.new) reader.old reader.new n) }
    ensures next { OnOk result (ReadsPart track.old (framed (shown track.new)) track.new) }
    ensures made { OnOk result (is_some (stand_of track.new).info ≡ true) }
    ensures names { reader.new.names ≡ reader.old.names }
{
    track.next_frame(reader)?;
    if reader.unread() != 0 {
        return Err(Why::Truncated);
    }
    Ok(reader.bytes_taken())
}

/// Reads the next frame, of which no byte was given yet, and lets its bytes come again. Returns how many they are.
fn pass_frame<R: Source>(again: &mut Again<R>, track: &mut Track) -> Result<u64, Why>
    requires { again.old.given ≡ 0 }
    ensures passed { IfOk result
        (λ n. PassesFrame R.Source (stand_of track.old) (shown track.new) again.old again.new n) }
    ensures next { OnOk result (ReadsPart track.old (framed (shown track.new)) track.new) }
    ensures made { OnOk result (is_some (stand_of track.new).info ≡ true) }
{
    let mut reader = BitReader::new(again);
    let taken = take_frame(&mut reader, track);
    let _again = reader.into_source(); // for its clauses alone
    taken
}

/// Reads the next frame (RFC 9639, section 9), and holds its bytes: they are the first of those that are held. Returns
/// how many they are, at most 16777215.
///
/// # Errors
/// Those of [`Track::next_frame`], and [`Why::Memory`] if an allocation fails.
pub(crate) fn next_frame<R: Source>(again: &mut Again<R>, track: &mut Track) -> Result<usize, Why>
    requires { again.old.given ≡ 0 }
    ensures given { IfOk result
        (λ n. GivesFrame R.Source (stand_of track.old) (shown track.new) again.old again.new n) }
    ensures next { OnOk result (ReadsPart track.old (framed (shown track.new)) track.new) }
    ensures made { OnOk result (is_some (stand_of track.new).info ≡ true) }
{
    match pass_frame(again, track) {
        Ok(n) => {
            again.hold(n as usize)?;
            Ok(n as usize)
        }
        Err(Why::Read) => Err(again.fault().unwrap_or(Why::Read)),
        Err(why) => Err(why),
    }
}
