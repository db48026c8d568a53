//! The laws of frames, as contracts.
ghost use Rattle.alp_fields.specs.Forms.{IsForm, SpellsOnce};
ghost use Rattle.alp_rpc.specs.Frames.{request, reply_frame, AreToldApart};

/// What is spelled is read back whatever follows it, and what is read was so spelled. No two frames
/// share a spelling, and none begins another's, nor does a request begin a reply or a reply a request.
pub fn frames_are_forms()
    ensures requests { IsForm request }
    ensures replies { IsForm reply_frame }
    ensures requests_once { SpellsOnce request }
    ensures replies_once { SpellsOnce reply_frame }
    ensures apart { AreToldApart }
{}
