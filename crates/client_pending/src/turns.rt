// The operations of whole transactions, found by their objects.
ghost use Rattle.std.specs.Prelude.{◌≡◌, ◌≤◌, ◌++◌, List, length, OnOk, OnErr};
ghost use Rattle.ids_core.specs.declared.limits.TheConstants.{MOST_UPDATES};
ghost use Rattle.ids_core.specs.declared.object.ObjectId.{ObjectId};
ghost use Rattle.tx_core.specs.declared.tx.Tx.{Tx as TxOf};
ghost use Rattle.tx_core.specs.Operations.{ops_of};
ghost use Rattle.object_lists.specs.Listed.{listed};
ghost use Rattle.client_pending.specs.Indexes.{Finds};

use ids_core::{Mark, NoMemory};
use object_lists::{ObjectLists, put_tx, take_first_tx};
use tx_core::{Op, Tx};

/// The marked operations on each object, in the order of their commits.
pub(crate) type Index = ObjectLists<(Mark, Op)>;

// Puts the operations of a transaction behind all others. An `Err` leaves all as it was.
pub(crate) fn put(index: &mut Index, tx: &Tx) -> Result<(), NoMemory>
    requires { length tx.now.updates ≤ MOST_UPDATES }
    ensures ok { OnOk result ((o : ObjectId) → listed index.new o ≡ listed index.old o ++ ops_of o tx.now) }
    ensures err { OnErr result ((o : ObjectId) → listed index.new o ≡ listed index.old o) }
{
    put_tx(index, 0, tx)
}

// Takes away the operations of transactions that are the first.
pub(crate) fn take_txs(index: &mut Index, txs: &[Tx])
    ensures { (rest : List TxOf) → Finds index.old (txs.now ++ rest) → Finds index.new rest }
{
    for tx in txs {
        take_first_tx(index, tx);
    }
}
