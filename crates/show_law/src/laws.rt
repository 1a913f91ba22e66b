// The laws of shows. Each is a function with nothing to do, whose contract is the law.
ghost use Rattle.std.specs.Prelude.{◌≡◌, ◌≤◌, ◌<◌, ℕ, ◌==◌, ◌⊎◌, List, [], ◌∷◌, ◌++◌, length, filter, flat_map, slice_get, Some};
ghost use Rattle.list_core.specs.Members.{In};
ghost use Rattle.ids_core.specs.declared.object.ObjectId.{ObjectId};
ghost use Rattle.vv_core.specs.Vectors.{zeros, Covers};
ghost use Rattle.tx_core.specs.declared.state.State.{State};
ghost use Rattle.tx_core.specs.States.{empty_of};
ghost use Rattle.dc_talk.specs.declared.settings.Settings.{Settings};
ghost use Rattle.dc_talk.specs.declared.log.Deed.{Deed};
ghost use Rattle.dc_talk.specs.Entries.{Entry};
ghost use Rattle.dc_talk.specs.Logs.{entries_made};
ghost use Rattle.dc_talk.specs.Records.{vector};
ghost use Rattle.dc_talk.specs.Trails.{applied, stable, horizon};
ghost use Rattle.dc_talk.specs.Objects.{state_at};
ghost use Rattle.dc_talk.specs.Answers.{History};
ghost use Rattle.script_core.specs.declared.taps.Show.{Show};
ghost use Rattle.dc_talk.specs.declared.seen.Fed.{Fed};
ghost use Rattle.script_core.specs.Taps.{opening};
ghost use Rattle.read_tap.specs.Shows.{IsFront};
ghost use Rattle.read_tap.specs.Feeds.{Feeds};
ghost use Rattle.show_law.specs.Subsequences.{IsSubsequence};
ghost use Rattle.show_law.specs.Fronts.{through, IsPrunedAt, IsFetchedAt, states_at};
ghost use Rattle.show_law.specs.Shows.{IsShowAt, IsShowOf, AreTapShows, IsFeedOf, HasShown, FeedsAll};

/// What a centre has of an object at a vector that it has stays as it is, whatever the centre is asked later (`stays`).
/// At the vector 0 it is empty (`zero`).
pub fn law_state_stays()
    ensures stays { (s : Settings) (before later : List Entry) (here : List ℕ) (object : ObjectId) → History s (before ++ later) → Covers (vector s.n (applied s.n before)) here → state_at object (applied s.n (before ++ later)) here ≡ state_at object (applied s.n before) here }
    ensures zero { (s : Settings) (trail : List Entry) (object : ObjectId) → History s trail → state_at object (applied s.n trail) (zeros s.n) ≡ empty_of object.sort }
{}

/// What stands among the entries of one caller in a trail stands in the trail, in the same order.
pub fn law_entries_stand()
    ensures { (trail entries : List Entry) (actor : ℕ) → IsSubsequence entries (filter (λ (entry : Entry). entry.caller == actor) trail) → IsSubsequence entries trail }
{}

/// A prune is answered with the base that it leaves, and a fetch at that vector, at any distance behind it, with the
/// state that the object had at the prune (`fetch`). So where the entries of a feed that found a show stand in a trail in
/// their order, whatever stands between them, the show is one of the trail (`feed`): one snapshot of all its objects. It
/// is still what the centre has of them at that vector after the whole trail (`later`).
pub fn law_show()
    ensures fetch { (s : Settings) (trail : List Entry) (p q : ℕ) (base : List ℕ) (object : ObjectId) (state : State) → History s trail → IsPrunedAt trail p base → p < q → IsFetchedAt trail q object base state → (base ≡ (horizon s (through p trail)).base) × (state ≡ state_at object (applied s.n (through p trail)) base) }
    ensures feed { (s : Settings) (trail : List Entry) (actor centre : ℕ) (objects : List ObjectId) (show : Show) (deeds : List Deed) → History s trail → IsFeedOf centre objects show deeds → IsSubsequence (entries_made actor centre deeds) trail → IsShowOf s trail objects show }
    ensures later { (s : Settings) (trail : List Entry) (objects : List ObjectId) (show : Show) → History s trail → IsShowOf s trail objects show → show.states ≡ states_at s trail objects show.vector }
{}

/// Of two shows of one trail the one whose prune is later covers the other's vector (`rise`). At its prune K centres are
/// known to have what a show covers (`stable`), and the centre has it (`held`).
pub fn law_shows_rise()
    ensures rise { (s : Settings) (trail : List Entry) (objects others : List ObjectId) (p q : ℕ) (first second : Show) → p ≤ q → IsShowAt s trail objects p first → IsShowAt s trail others q second → Covers second.vector first.vector }
    ensures stable { (s : Settings) (trail : List Entry) (objects : List ObjectId) (p : ℕ) (show : Show) → IsShowAt s trail objects p show → Covers (stable s (through p trail)) show.vector }
    ensures held { (s : Settings) (trail : List Entry) (objects : List ObjectId) (p : ℕ) (show : Show) → IsShowAt s trail objects p show → Covers (vector s.n (applied s.n (through p trail))) show.vector }
{}

/// The opening show of a tap is at the first base (`base`), and its states are what the centre has of the objects there
/// after any trail (`states`).
pub fn law_opening()
    ensures base { (s : Settings) (objects : List ObjectId) → (opening s.n objects).vector ≡ (horizon s []).base }
    ensures states { (s : Settings) (trail : List Entry) (objects : List ObjectId) → History s trail → (opening s.n objects).states ≡ states_at s trail objects (opening s.n objects).vector }
{}

/// A feed adds the show that it found, or none.
pub fn law_feed()
    ensures { (centre : ℕ) (objects : List ObjectId) (old new : List Show) (fed : Fed) (deeds : List Deed) → Feeds centre objects old new fed deeds → (new ≡ old) ⊎ HasShown centre objects old new fed deeds }
{}

/// Where the entries of all feeds of a tap stand in a trail in their order, whatever stands between them, the tap's shows
/// are the opening one and shows of the trail, in its order (`shows`), and so are those that a reader has seen
/// (`readers`). So no show goes back behind an earlier one (`rise`), and each is what the centre has of the objects at
/// its vector (`states`).
pub fn law_tap()
    ensures shows { (s : Settings) (trail : List Entry) (actor centre : ℕ) (objects : List ObjectId) (shows : List Show) (feeds : List (List Deed)) → History s trail → FeedsAll centre objects (opening s.n objects ∷ []) shows feeds → IsSubsequence (flat_map (entries_made actor centre) feeds) trail → AreTapShows s trail objects shows }
    ensures readers { (s : Settings) (trail : List Entry) (objects : List ObjectId) (shows seen : List Show) → AreTapShows s trail objects shows → IsFront seen shows → 1 ≤ length seen → AreTapShows s trail objects seen }
    ensures rise { (s : Settings) (trail : List Entry) (objects : List ObjectId) (shows : List Show) (p q : ℕ) (first second : Show) → AreTapShows s trail objects shows → p ≤ q → slice_get shows p ≡ Some first → slice_get shows q ≡ Some second → Covers second.vector first.vector }
    ensures states { (s : Settings) (trail : List Entry) (objects : List ObjectId) (shows : List Show) (show : Show) → History s trail → AreTapShows s trail objects shows → In show shows → show.states ≡ states_at s trail objects show.vector }
{}
