// What is listed of an operation.
ghost use Rattle.std.specs.Prelude.{◌≡◌, ℕ};
ghost use Rattle.ids_core.specs.declared.ids.Mark.{Mark};
ghost use Rattle.tx_core.specs.declared.op.Op.{Op};

use ids_core::Mark;
use tx_core::Op;

/// What is listed of an operation: the operation with its mark, and maybe the number of its
/// transaction.
pub trait Entry: Drop {
    /// What is listed of a marked operation of the transaction of a number.
    ghost entry_of: { ℕ → (Mark × Op) → Self };

    /// What is listed of a marked operation of the transaction of a number.
    fn of(number: u64, mark: Mark, op: Op) -> Self
        ensures { result ≡ entry_of number (mark, op) };
}

impl Entry for (Mark, Op) {
    ghost entry_of = { λ number marked. marked };

    fn of(_number: u64, mark: Mark, op: Op) -> (Mark, Op) {
        (mark, op)
    }
}
