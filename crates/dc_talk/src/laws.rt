// The laws of histories and of deltas. Each is a function with nothing to do, whose contract is the law.
ghost use Rattle.std.specs.Prelude.{◌≡◌, ℕ, List};
ghost use Rattle.list_core.specs.Moments.{Each};
ghost use Rattle.ids_core.specs.declared.object.ObjectId.{ObjectId};
ghost use Rattle.vv_core.specs.Vectors.{Covers};
ghost use Rattle.tx_core.specs.declared.tx.Record.{Record};
ghost use Rattle.tx_core.specs.States.{fold_of};
ghost use Rattle.dc_talk.specs.Objects.{state_at, ops_since};
ghost use Rattle.dc_talk.specs.declared.settings.Settings.{Settings};
ghost use Rattle.dc_talk.specs.Entries.{Entry};
ghost use Rattle.dc_talk.specs.Trails.{applied};
ghost use Rattle.dc_talk.specs.Laws.{IsCentreHistory, IsInOrder, HasNoGaps, HasDependencies, HasNumbersBelow, HasStampsInOrder};

/// What a centre makes sure of by its answers alone. In the records that it has applied, those of one
/// origin come without a gap, what a record depends on is there before it, a client's numbers come
/// without a gap, and the k-th record of a centre has the stamp k.
pub fn law_history()
    ensures order { (s : Settings) (trail : List Entry) → IsCentreHistory s trail → Each (IsInOrder s) (applied s.n trail) }
    ensures origins { (s : Settings) (trail : List Entry) → IsCentreHistory s trail → HasNoGaps (applied s.n trail) }
    ensures dependencies { (s : Settings) (trail : List Entry) → IsCentreHistory s trail → HasDependencies (applied s.n trail) }
    ensures numbers { (s : Settings) (trail : List Entry) → IsCentreHistory s trail → HasNumbersBelow (applied s.n trail) }
    ensures stamps { (s : Settings) (trail : List Entry) → IsCentreHistory s trail → HasStampsInOrder (applied s.n trail) }
{}

/// The operations that came to an object between two vectors, folded into its state at the first, give its state at the
/// second: the same state, and not only one with the same value.
pub fn law_delta()
    ensures { (A : List Record) (before w : List ℕ) (o : ObjectId) → Covers w before → fold_of (state_at o A before) (ops_since o A before w) ≡ state_at o A w }
{}
