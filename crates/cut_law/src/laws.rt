// The laws of cuts. Each is a function with nothing to do, whose contract is the law.
ghost use Rattle.std.specs.Prelude.{◌≡◌, ◌≤◌, ℕ, List, ◌++◌, length, drop};
ghost use Rattle.list_core.specs.Members.{In};
ghost use Rattle.tx_core.specs.declared.tx.Record.{Record};
ghost use Rattle.join_bundle.specs.declared.part.BundleParts.{BundleParts};
ghost use Rattle.join_bundle.specs.Conditions.{IsCentre};
ghost use Rattle.dc_talk.specs.declared.ask.Ask.{Ask};
ghost use Rattle.dc_talk.specs.declared.ask.Ask.TheVariants.{Send, Relay};
ghost use Rattle.dc_talk.specs.declared.say.Say.TheVariants.{Records};
ghost use Rattle.dc_talk.specs.declared.sent.Sent.{Sent};
ghost use Rattle.dc_talk.specs.declared.settings.Settings.{Settings};
ghost use Rattle.dc_talk.specs.Entries.{Entry};
ghost use Rattle.dc_talk.specs.Records.{count};
ghost use Rattle.dc_talk.specs.Trails.{applied};
ghost use Rattle.dc_talk.specs.Answers.{answer};
ghost use Rattle.dc_talk.specs.Laws.{IsCentreHistory};
ghost use Rattle.cut_law.specs.Parts.{answer_over, parts_past, parts_of, GoesOn};
ghost use Rattle.cut_law.specs.Cuts.{IsCutOf};
ghost use Rattle.cut_law.specs.Adopting.{CanAdopt, MayStart, adopted};

/// The answer after a trail is that over the parts of the trail, which each later entry moves on.
pub fn law_parts()
    ensures { (s : Settings) (trail later : List Entry) (ask : Ask) → answer s (trail ++ later) ask ≡ answer_over s (parts_past s (parts_of s trail) later) ask }
{}

/// Where two lists of records have one cut, a centre that adopted the cut goes on over the one as over the other:
/// what is a history over the one is so over the other, and each later ask is answered the same.
pub fn law_cut()
    ensures history { (s : Settings) (b : BundleParts) (A B : List Record) (later : List Entry) → IsCentre s.n s.me → 1 ≤ s.k → CanAdopt s b → MayStart s b A → MayStart s b B → GoesOn s (adopted b A) later → GoesOn s (adopted b B) later }
    ensures answers { (s : Settings) (b : BundleParts) (A B : List Record) (later : List Entry) (ask : Ask) → IsCentre s.n s.me → 1 ≤ s.k → CanAdopt s b → MayStart s b A → MayStart s b B → GoesOn s (adopted b A) later → answer_over s (parts_past s (adopted b A) later) ask ≡ answer_over s (parts_past s (adopted b B) later) ask }
{}

/// A centre that adopted hands on later records alone: none that it was given is ever sent or relayed.
pub fn law_handed_on()
    ensures sends { (s : Settings) (b : BundleParts) (A : List Record) (later : List Entry) (after most : ℕ) (sent : List Sent) (x : Sent) → IsCentre s.n s.me → CanAdopt s b → MayStart s b A → Records sent ≡ answer_over s (parts_past s (adopted b A) later) (Send after most) → In x sent → In x (drop (length A) (parts_past s (adopted b A) later).carried) }
    ensures relays { (s : Settings) (b : BundleParts) (A : List Record) (later : List Entry) (origin after most : ℕ) (sent : List Sent) (x : Sent) → CanAdopt s b → MayStart s b A → Records sent ≡ answer_over s (parts_past s (adopted b A) later) (Relay origin after most) → In x sent → In x (drop (length A) (parts_past s (adopted b A) later).carried) }
{}

/// After each history there is a bundle for the centre to give, and just one.
pub fn law_one_cut()
    ensures some { (s : Settings) (trail : List Entry) → IsCentreHistory s trail → (b : BundleParts) × IsCutOf s trail b }
    ensures one { (s : Settings) (trail : List Entry) (b c : BundleParts) → IsCutOf s trail b → IsCutOf s trail c → b ≡ c }
{}

/// The bundle that a donor gives after its trail can be adopted by each other centre among as many and with the same
/// K, of which the donor has no record: it meets all conditions of a bundle, and its mark is stable there. What the
/// donor applied is a list that the other centre may start from.
pub fn law_given()
    ensures adopts { (donor : Settings) (trail : List Entry) (b : BundleParts) (me limit : ℕ) → IsCentreHistory donor trail → 1 ≤ donor.k → IsCutOf donor trail b → (me ≡ donor.me → ⊥) → count me (applied donor.n trail) ≡ 0 → CanAdopt (record { me = me; n = donor.n; k = donor.k; limit = limit }) b }
    ensures starts { (donor : Settings) (trail : List Entry) (b : BundleParts) (me limit : ℕ) → IsCentreHistory donor trail → 1 ≤ donor.k → IsCutOf donor trail b → (me ≡ donor.me → ⊥) → count me (applied donor.n trail) ≡ 0 → MayStart (record { me = me; n = donor.n; k = donor.k; limit = limit }) b (applied donor.n trail) }
{}
