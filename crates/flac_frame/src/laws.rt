//! Laws: what holds of the definitions. Calling them does nothing; a proof may name them.

ghost use Rattle.flac_frame.specs.Encoding.{FormsStand, EncodingsAreFrames, FrameFamilyIsPlain, FramePlanesIsPlain, FrameFamilyWithIsPlain};
ghost use Rattle.flac_frame.specs.Follows.{AcceptedFollow, FramesFollow};
ghost use Rattle.flac_frame.specs.Spelling.{FramesAreSpelled, FramesAreReadAgain, FramesAreBytes};
ghost use Rattle.flac_frame.specs.Stereo.{ChannelsAreJoined, ChannelsAreKept};

/// The channels that are read are the only ones for which the equations of left, right, mid and side hold; and two
/// channels that were decorrelated under a code are got back from what the code keeps (RFC 9639, section 4.2).
pub fn channels_are_joined()
    ensures joined { ChannelsAreJoined }
    ensures kept { ChannelsAreKept }
{}

/// A reader that judges one header after another accepts exactly what the standard asks of the list of all headers, and
/// the frames that it reads one after another are those whose headers follow one another so (RFC 9639, sections 7, 8.2
/// and 9.1).
pub fn frames_follow()
    ensures headers { AcceptedFollow }
    ensures frames { FramesFollow }
{}

/// At a whole byte, the bits of a frame are exactly the spellings of its forms. Such a spelling is whole bytes, and is
/// read as that frame, whatever follows.
pub fn frames_are_spelled()
    ensures spelled { FramesAreSpelled }
    ensures again { FramesAreReadAgain }
    ensures bytes { FramesAreBytes }
{}

/// A form that a choice makes of samples can be spelled, and has exactly these samples.
pub fn forms_stand_for_samples()
    ensures { FormsStand }
{}

/// What is encoded of a block of samples is a frame of that block, in a stream of the samples' format and profile: a
/// rate or a depth that its header leaves out is that of STREAMINFO (RFC 9639, sections 9.1.2 and 9.1.4).
pub fn encodings_are_frames()
    ensures { EncodingsAreFrames }
{}

/// The frames that the encoder compares are exactly the encodings of the block, under any channel code, whose subframes
/// are constant, verbatim or by a fixed predictor, and leave out all the lowest bits that their samples lack.
pub fn frame_family_is_plain()
    ensures { FrameFamilyIsPlain }
{}

/// The same if linear predictors are handed in: subframes may also be by one of these.
pub fn frame_family_with_is_plain()
    ensures { FrameFamilyWithIsPlain }
{}

/// The same if each plane has a list of its own: a subframe may also be by one of the list of its plane, and by no other.
pub fn frame_planes_is_plain()
    ensures { FramePlanesIsPlain }
{}
