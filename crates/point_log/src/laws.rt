// The laws of a split.
ghost use Rattle.std.specs.Prelude.{◌≡◌, ℕ, true, false, not, List, [], ◌∷◌, ◌++◌, ◌+◌, length, max, filter, flat_map};
ghost use Rattle.list_core.specs.Members.{In};
ghost use Rattle.ids_core.specs.declared.ids.Dot.{Dot};
ghost use Rattle.ids_core.specs.declared.object.ObjectId.{ObjectId};
ghost use Rattle.vv_core.specs.Vectors.{within, Covers};
ghost use Rattle.tx_core.specs.declared.tx.Tx.{Tx};
ghost use Rattle.tx_core.specs.declared.tx.Record.{Record};
ghost use Rattle.tx_core.specs.States.{fold_of};
ghost use Rattle.tx_core.specs.Operations.{ops_of};
ghost use Rattle.dc_talk.specs.Records.{has, inside, mine};
ghost use Rattle.dc_talk.specs.Dots.{dots_of, stamps_of};
ghost use Rattle.dc_talk.specs.Objects.{state_at};
ghost use Rattle.check_point.specs.Operations.{state_after, greatest};
ghost use Rattle.op_log.specs.declared.logged.Logged.{Logged};
ghost use Rattle.op_log.specs.Logs.{LogView, chain_of, is_inside_at, mine_in, has_dot, with_record, with_stamp, within_of, left_of};
ghost use Rattle.point_log.specs.LogSplits.{txs_of, ops_in, rest_txs};
ghost use Rattle.check_point.specs.Points.{PointView, IsPointOf, state_of, number_of};
ghost use Rattle.point_log.specs.StandFor.{StandFor, state_told, mine_told, count_told, with_one};
ghost use Rattle.point_log.specs.Splits.{first_txs, is_inside, IsSplit};

/// Of applied records all that is within a base was folded, each dot once, by its first record, and the
/// rest is kept, in whatever order. At a vector that covers the base, the kept transactions within it
/// give, over what the folded ones gave, what the whole list gives: the state of an object, which is the
/// same state and not only one with the same value, the greatest number of a client, and how many
/// transactions are within it.
pub fn law_split()
    ensures state { (A : List Record) (base w : List ℕ) (folded kept : List Tx) (o : ObjectId) → IsSplit A base folded kept → Covers w base → fold_of (state_after o folded) (flat_map (ops_of o) (filter (is_inside A w) kept)) ≡ state_at o A w }
    ensures mine { (A : List Record) (base w : List ℕ) (folded kept : List Tx) (client : ℕ) → IsSplit A base folded kept → Covers w base → max (greatest client folded) (greatest client (filter (is_inside A w) kept)) ≡ mine client (inside A w) }
    ensures count { (A : List Record) (base w : List ℕ) (folded kept : List Tx) → IsSplit A base folded kept → Covers w base → length folded + length (filter (is_inside A w) kept) ≡ length (filter (is_inside A w) (first_txs A)) }
{}

/// A split stays one through what a centre does: with nothing applied nothing is folded and nothing kept;
/// the first record of a dot is kept and another one of it adds nothing, where the stamp is not within the
/// base; and at a later base what is within it of the kept ones is folded behind the others.
pub fn law_split_steps()
    ensures none { (base : List ℕ) → IsSplit [] base [] [] }
    ensures first { (A : List Record) (base : List ℕ) (folded kept : List Tx) (r : Record) → IsSplit A base folded kept → within r.stamp base ≡ false → has r.tx.dot (dots_of A) ≡ false → IsSplit (A ++ r ∷ []) base folded (kept ++ r.tx ∷ []) }
    ensures again { (A : List Record) (base : List ℕ) (folded kept : List Tx) (r : Record) → IsSplit A base folded kept → within r.stamp base ≡ false → has r.tx.dot (dots_of A) ≡ true → IsSplit (A ++ r ∷ []) base folded kept }
    ensures on { (A : List Record) (base to : List ℕ) (folded kept : List Tx) → IsSplit A base folded kept → Covers to base → IsSplit A to (folded ++ filter (is_inside A to) kept) (filter (λ tx. not (is_inside A to tx)) kept) }
{}

/// A point and a log that stand for applied records tell what the whole list tells, at a vector that covers
/// the point's: the operations of an object's chain whose transaction is inside it give, over the point's
/// state, the state of the object, which is the same state and not only one with the same value; and so
/// with the greatest number of a client, and with how many transactions have a stamp within it. What the log
/// has are the transactions that are not within the point's vector, in the order of their first records, and
/// each of these is the transaction of a record, with all stamps of its dot.
pub fn law_stand_for()
    ensures state { (A : List Record) (point : PointView) (kept : LogView) (w : List ℕ) (o : ObjectId) → StandFor A point kept → Covers w point.vector → state_told point kept o w ≡ state_at o A w }
    ensures mine { (A : List Record) (point : PointView) (kept : LogView) (w : List ℕ) (client : ℕ) → StandFor A point kept → Covers w point.vector → mine_told point kept client w ≡ mine client (inside A w) }
    ensures count { (A : List Record) (point : PointView) (kept : LogView) (w : List ℕ) → StandFor A point kept → Covers w point.vector → count_told point kept w ≡ length (filter (is_inside A w) (first_txs A)) }
    ensures order { (A : List Record) (point : PointView) (kept : LogView) → StandFor A point kept → txs_of kept.items ≡ rest_txs A point.vector }
    ensures known { (A : List Record) (point : PointView) (kept : LogView) (x : Logged) → StandFor A point kept → In x kept.items → ((r : Record) × In r A × (x.tx ≡ r.tx)) × (x.stamps ≡ stamps_of x.tx.dot A) }
{}

/// They stand for the records through what a centre does: with nothing applied, a point with nothing folded
/// and an empty log; the first record of a dot is appended, whose dot was not in the log; another record of
/// a dot gives its transaction one stamp more, where the log has it; and where the log's transactions within
/// a later vector were folded into the point, those are taken out of the log.
pub fn law_stand_for_steps()
    ensures none { (point : PointView) → IsPointOf point [] → StandFor [] point (record { appended = 0; items = [] }) }
    ensures new { (A : List Record) (point : PointView) (kept : LogView) (d : Dot) → StandFor A point kept → has d (dots_of A) ≡ false → has_dot d kept.items ≡ false }
    ensures first { (A : List Record) (point : PointView) (kept : LogView) (r : Record) → StandFor A point kept → within r.stamp point.vector ≡ false → has r.tx.dot (dots_of A) ≡ false → StandFor (A ++ r ∷ []) point (with_record kept r) }
    ensures again { (A : List Record) (point : PointView) (kept : LogView) (r : Record) → StandFor A point kept → within r.stamp point.vector ≡ false → has r.tx.dot (dots_of A) ≡ true → StandFor (A ++ r ∷ []) point (record kept { items = with_stamp r.tx.dot r.stamp kept.items }) }
    ensures pruned { (A : List Record) (point after : PointView) (kept : LogView) → StandFor A point kept → Covers after.vector point.vector → ((given : List Tx) → IsPointOf point given → IsPointOf after (given ++ txs_of (within_of after.vector kept.items))) → StandFor A after (record kept { items = left_of after.vector kept.items }) }
{}
