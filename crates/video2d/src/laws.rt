//! What holds of the display at every time.

ghost use Rattle.video2d.specs.VideoLaws.{StaysVideo, StayTelling};

/// Does nothing; its contract states that at boot, and after each write of a port and each event, registers have the bits that they keep and no
/// others, running points are words, and the pixels of both frames are colours, whose bit 15 is 0; and that from boot on the flags of V-blank and
/// of H-blank tell where the display is.
#[tactic(auto, using(crate::proofs::VideoLaws::stays_video, crate::proofs::VideoLaws::stay_telling))]
pub fn video_laws()
    ensures kept { StaysVideo }
    ensures flags { StayTelling }
{}
