// The laws of accounts and of rights. Each is a function with nothing to do, whose contract is the law.
ghost use Rattle.std.specs.Prelude.{◌≡◌, ℕ, ℤ, Bool, List, length, map, ◌++◌, pos, ◌≤ℤ◌};
ghost use Rattle.list_core.specs.Apart.{Apart};
ghost use Rattle.ids_core.specs.declared.ids.Dot.{Dot};
ghost use Rattle.ids_core.specs.declared.object.ObjectId.{ObjectId};
ghost use Rattle.obj_bounded.specs.HolderRights.{rights_of};
ghost use Rattle.tx_graph.specs.Nodes.{Node, Closed, WellMade};
ghost use Rattle.graph_rights.specs.Accounts.{AccountTx, IsCheckedAccount, IsClosedOver, balance};
ghost use Rattle.graph_rights.specs.Rights.{rights_by, rights_over, IsGuarded};

/// An account that only its owner takes from, and only what is there by all that the transaction depends on and by its
/// own earlier updates, is never below 0, over any set of transactions that is closed. Nothing is said of the order in
/// which the transactions of others came.
pub fn law_account()
    ensures { (owner : ℕ) (all : List AccountTx) (inside : Dot → Bool) → IsCheckedAccount owner all → IsClosedOver all inside → pos 0 ≤ℤ balance inside all }
{}

/// Over a closed set of a graph in which what counts against a holder of a bounded counter is checked as it is added, the
/// holder's rights are at least 0 (Balegas and others, SRDS 2015).
pub fn law_rights_over()
    ensures { (owner : ℕ) (gains losses : List ObjectId) (nodes : List Node) (set : List Dot) → WellMade nodes → Apart (λ (cell : ObjectId). cell) losses → IsGuarded owner gains losses nodes → Closed nodes set → pos 0 ≤ℤ rights_over gains losses nodes set }
{}

/// What `rights` sums up is the rights by the value of each cell.
pub fn law_rights_of()
    ensures { (gains losses : List ObjectId) (value : ObjectId → ℤ) → rights_of (length gains) (map value (gains ++ losses)) ≡ rights_by gains losses value }
{}
