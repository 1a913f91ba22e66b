// What a log tells of deltas. It is a function with nothing to do, whose contract is the law.
ghost use Rattle.std.specs.Prelude.{◌≡◌, ℕ, List};
ghost use Rattle.ids_core.specs.declared.object.ObjectId.{ObjectId};
ghost use Rattle.vv_core.specs.Vectors.{Covers};
ghost use Rattle.tx_core.specs.declared.tx.Record.{Record};
ghost use Rattle.dc_talk.specs.Objects.{ops_since};
ghost use Rattle.op_log.specs.Logs.{LogView};
ghost use Rattle.check_point.specs.Points.{PointView};
ghost use Rattle.point_log.specs.StandFor.{StandFor};
ghost use Rattle.object_delta.specs.Deltas.{ops_told};

/// Where a point and a log stand for records, and the first of two vectors covers the point's, the log tells the operations
/// on an object that came between the two, in the order of the records.
pub fn law_told()
    ensures { (A : List Record) (point : PointView) (kept : LogView) (before w : List ℕ) (o : ObjectId) → StandFor A point kept → Covers before point.vector → ops_told kept o before w ≡ ops_since o A before w }
{}
