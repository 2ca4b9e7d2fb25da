//! What bytes are as frames.
ghost use Rattle.std.specs.Prelude.{◌≡◌, ◌≤◌, ℕ, List, length};
ghost use Rattle.jn_lsp_frames.specs.declared.frame.Frame.{Frame as SpecFrame};
ghost use Rattle.jn_lsp_frames.specs.declared.frame.Frame.TheVariants.{Body};
ghost use Rattle.jn_lsp_frames.specs.Frames.{AreFrames, FrameOf, IsPartial, frame_of};

/// Bytes have one list of frames, and one rest in which no frame is whole.
pub fn one_reading()
    ensures { (bytes : List ℕ) (frames others : List SpecFrame) (rest left : List ℕ)
        → AreFrames bytes frames rest → AreFrames bytes others left → IsPartial rest → IsPartial left
        → (frames ≡ others) × (rest ≡ left) }
{}

/// A frame that is written of a body within the limit is read as this body.
pub fn written_is_read()
    ensures { (body : List ℕ) → length body ≤ 16777216 → FrameOf (frame_of body) (Body body) }
{}
