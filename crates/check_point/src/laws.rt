// The laws of points.
ghost use Rattle.std.specs.Prelude.{◌≡◌, ◌+◌, ℕ, Bool, List, length, max, filter, flat_map};
ghost use Rattle.ids_core.specs.declared.object.ObjectId.{ObjectId};
ghost use Rattle.tx_core.specs.declared.tx.Tx.{Tx};
ghost use Rattle.tx_core.specs.States.{fold_of};
ghost use Rattle.tx_core.specs.Operations.{ops_of};
ghost use Rattle.check_point.specs.Operations.{state_after, greatest};
ghost use Rattle.check_point.specs.Partings.{IsParting};

/// Of transactions with different dots, some were folded, and all of these pass a test: what those that
/// were not folded and pass it give, over what the folded ones gave, is what all that pass it give, in
/// whatever order they were folded and kept. So it is with the state of each object, which is the same
/// state and not only one with the same value, with the greatest number of each client, and with how
/// many they are.
pub fn law_parting()
    ensures states { (o : ObjectId) (test : Tx → Bool) (txs folded kept : List Tx) → IsParting test txs folded kept → fold_of (state_after o folded) (flat_map (ops_of o) (filter test kept)) ≡ state_after o (filter test txs) }
    ensures numbers { (client : ℕ) (test : Tx → Bool) (txs folded kept : List Tx) → IsParting test txs folded kept → max (greatest client folded) (greatest client (filter test kept)) ≡ greatest client (filter test txs) }
    ensures count { (test : Tx → Bool) (txs folded kept : List Tx) → IsParting test txs folded kept → length folded + length (filter test kept) ≡ length (filter test txs) }
{}
