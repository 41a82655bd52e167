//! Laws of frames. Each is the contract of a function that does nothing.
ghost use Rattle.nrm_frames.specs.Frames.{FramesDontDependOnPieces};

/// The frames of a front of a stream are the first of the whole, and bytes that begin no frame begin none whatever follows.
pub fn frames_dont_depend_on_pieces()
    ensures { FramesDontDependOnPieces }
{}
