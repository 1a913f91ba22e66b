// What the bytes of items tell: the law that a link's faults are faults of bytes.
ghost use Rattle.std.specs.Prelude.{◌≡◌, ℕ};
ghost use Rattle.dc_talk.specs.declared.links.LinkFault.{LinkFault};
ghost use Rattle.dc_talk.specs.declared.sent.Sent.{Sent};
ghost use Rattle.link_frames.specs.Spelling.{spelling};
ghost use Rattle.link_frames.specs.Frames.{HasFrame};
ghost use Rattle.link_frames.specs.Reading.{read_whole};
ghost use Rattle.script_core.specs.Links.{left_by};
ghost use Rattle.dc_worker.specs.Inlets.{read_as};
ghost use Rattle.dc_worker.specs.ItemBytes.{spoilt};

/// What a link makes of the item of a number is what its bytes spell once the link's fault has changed them. The function
/// has nothing to do.
pub fn law_item_bytes()
    ensures { (fault : LinkFault) (number : ℕ) (sent : Sent) → HasFrame sent → read_as number (read_whole (spoilt fault number (spelling sent))) ≡ left_by fault number sent }
{}
