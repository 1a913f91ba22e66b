// The laws of the records of a history. Each is a function with nothing to do, whose contract is the law.
ghost use Rattle.std.specs.Prelude.{◌≡◌, ◌≤◌, ℕ, true, List};
ghost use Rattle.list_core.specs.Members.{In};
ghost use Rattle.ids_core.specs.declared.limits.TheConstants.{MOST_RECORDS};
ghost use Rattle.dc_talk.specs.declared.ask.Ask.TheVariants.{Send, Relay};
ghost use Rattle.dc_talk.specs.declared.say.Say.TheVariants.{Records};
ghost use Rattle.dc_talk.specs.declared.sent.Sent.{Sent};
ghost use Rattle.dc_talk.specs.declared.settings.Settings.{Settings};
ghost use Rattle.dc_talk.specs.Entries.{Entry};
ghost use Rattle.dc_talk.specs.Records.{count, vector};
ghost use Rattle.dc_talk.specs.Trails.{carried, applied};
ghost use Rattle.dc_talk.specs.Answers.{are_modest, IsAnswer};
ghost use Rattle.dc_talk.specs.Laws.{IsCentreHistory};
ghost use Rattle.trail_frames.specs.Carried.{IsCarried, AreDeliverable, AreDeliverableNear};

/// A centre has at most `MOST_RECORDS` records of each centre, so its vector can be learned.
pub fn law_modest()
    ensures counts { (s : Settings) (trail : List Entry) (e : ℕ) → IsCentreHistory s trail → count e (applied s.n trail) ≤ MOST_RECORDS }
    ensures modest { (s : Settings) (trail : List Entry) → IsCentreHistory s trail → are_modest (vector s.n (applied s.n trail)) ≡ true }
{}

/// Each record that a centre has can be delivered but for its hops, which are at most one more than a delivery has. One that it
/// stamped has none.
pub fn law_carried()
    ensures { (s : Settings) (trail : List Entry) (sent : Sent) → IsCentreHistory s trail → In sent (carried s.n trail) → IsCarried s sent }
{}

/// The records that answer a send can be delivered. Those that answer a relay can be exactly where they have at most `MOST_HOPS`
/// hops. The same holds of each answer that stands in the history.
pub fn law_sent_fits()
    ensures sent { (s : Settings) (trail : List Entry) (after most : ℕ) (list : List Sent) → IsCentreHistory s trail → IsAnswer s trail (Send after most) (Records list) → AreDeliverable list }
    ensures relayed { (s : Settings) (trail : List Entry) (origin after most : ℕ) (list : List Sent) → IsCentreHistory s trail → IsAnswer s trail (Relay origin after most) (Records list) → AreDeliverableNear list }
    ensures was_sent { (s : Settings) (trail : List Entry) (entry : Entry) (after most : ℕ) (list : List Sent) → IsCentreHistory s trail → In entry trail → entry.ask ≡ Send after most → entry.say ≡ Records list → AreDeliverable list }
    ensures was_relayed { (s : Settings) (trail : List Entry) (entry : Entry) (origin after most : ℕ) (list : List Sent) → IsCentreHistory s trail → In entry trail → entry.ask ≡ Relay origin after most → entry.say ≡ Records list → AreDeliverableNear list }
{}
