//! Laws: what holds of the definitions. Calling them does nothing; a proof may name them.

ghost use Rattle.flac_salvage.specs.Standing.{RefusalsAreFinal};
ghost use Rattle.flac_salvage.specs.Found.{NoneIsMissed, EachIsTold, NoneIsBoth, FoundOnce, FramesAreLocal};

/// Of all whole frames, found one after another: each frame that stands whole is one of them, or begins inside one; and
/// each byte is in one of them or in a missing range, and none is in both. There is only one such list.
pub fn whole_frames_are_found()
    ensures missed { NoneIsMissed }
    ensures told { EachIsTold }
    ensures both { NoneIsBoth }
    ensures once { FoundOnce }
{}

/// Whether a frame stands at an offset depends on its own bytes alone; and where there is none for another
/// reason than that the bytes end, there is none whatever follows. So whole frames may be looked for in a window.
pub fn frames_are_local()
    ensures local { FramesAreLocal }
    ensures last { RefusalsAreFinal }
{}
