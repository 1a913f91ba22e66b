// The laws of items. Each is a function with nothing to do, whose contract is the law.
ghost use Rattle.std.specs.Prelude.{◌≡◌, ◌<◌, ◌↔◌, ℕ, List, All, Ok, Err};
ghost use Rattle.dc_talk.specs.declared.sent.Sent.{Sent};
ghost use Rattle.wire_codec.specs.declared.item.Decoded.{Decoded};
ghost use Rattle.wire_codec.specs.Answers.{IsAnswer};
ghost use Rattle.dc_talk.specs.declared.links.FrameFault.TheVariants.{Short, Bad};
ghost use Rattle.link_frames.specs.Spelling.{spelling};
ghost use Rattle.link_frames.specs.Frames.{HasFrame};
ghost use Rattle.link_frames.specs.Reading.{decoded_of, read_whole};
ghost use Rattle.link_frames.specs.Spoiling.{cut_of, bent_of};

/// What the fields of a frame tell of bytes is what `decode` answers of them. So `read_whole` rests on that answer.
pub fn law_decoded()
    ensures { (bytes : List ℕ) (answer : Decoded) → All (λ byte. byte < 256) bytes →
        IsAnswer bytes answer ↔ (decoded_of bytes ≡ answer) }
{}

/// The bytes of a record with its hops are read as that record with these hops.
pub fn law_item_read()
    ensures { (sent : Sent) → HasFrame sent → read_whole (spelling sent) ≡ Ok sent }
{}

/// Records with the same bytes are one, with the same hops.
pub fn law_one_item()
    ensures { (sent other : Sent) → HasFrame sent → HasFrame other → spelling sent ≡ spelling other → sent ≡ other }
{}

/// Without its last byte the item of a record ends too early.
pub fn law_cut_is_short()
    ensures { (sent : Sent) → HasFrame sent → read_whole (cut_of (spelling sent)) ≡ Err Short }
{}

/// With 0 as its second byte, which is the version, the item of a record is at fault there.
pub fn law_bend_is_bad()
    ensures { (sent : Sent) → read_whole (bent_of (spelling sent)) ≡ Err (Bad 1) }
{}
