// The laws of states over their operations.
ghost use Rattle.std.specs.Prelude.{◌≡◌, ◌<◌, ◌^◌, ◌↔◌, ℕ, List};
ghost use Rattle.list_core.specs.Members.{In};
ghost use Rattle.list_core.specs.Permutations.{Perm};
ghost use Rattle.ids_core.specs.declared.ids.Mark.{Mark};
ghost use Rattle.ids_core.specs.declared.ids.OpId.{OpId};
ghost use Rattle.ids_core.specs.declared.object.Sort.{Sort};
ghost use Rattle.ids_core.specs.declared.object.Sort.TheVariants as kind;
ghost use Rattle.ids_core.specs.Kinds.{Commutes, Distinct};
ghost use Rattle.obj_counter.specs.Counter.{deltas, sizes};
ghost use Rattle.tx_core.specs.declared.op.Op.{Op};
ghost use Rattle.tx_core.specs.declared.state.State.{State};
ghost use Rattle.tx_core.specs.declared.state.Value.TheVariants.{Number};
ghost use Rattle.tx_core.specs.Ops.{counter_op, marked};
ghost use Rattle.tx_core.specs.Objects.{AreOf, IsLiveId, IsValueOf, sum_of};
ghost use Rattle.tx_core.specs.States.{empty_of, fold_of, sort_of, step, tags_of, value_of};

/// Operations with different identifiers commute, so that they end in one state in every order and
/// from every state. They keep the state's kind.
pub fn law_state_order()
    ensures commute { Commutes step }
    ensures order { (state : State) (ops others : List (Mark × Op)) → Perm ops others → Distinct ops → fold_of state ops ≡ fold_of state others }
    ensures sort { (state : State) (ops : List (Mark × Op)) → sort_of (fold_of state ops) ≡ sort_of state }
{}

/// Of the operations of an object, with different identifiers: the tags of a word or key are the
/// identifiers of the adds or puts of it that no operation on it is over.
pub fn law_state_tags()
    ensures live { (sort : Sort) (ops : List (Mark × Op)) (name : List ℕ) (id : OpId) → Distinct ops → AreOf sort ops → In id (tags_of (fold_of (empty_of sort) ops) name) ↔ IsLiveId ops name id }
{}

/// Of the operations of an object, with different identifiers: what a read gives is the value that
/// they have whatever their order. The sum of a counter is not wrapped where the sizes of the deltas
/// together stay below 2^127.
pub fn law_state_value()
    ensures value { (sort : Sort) (ops : List (Mark × Op)) → Distinct ops → AreOf sort ops → IsValueOf sort ops (value_of (fold_of (empty_of sort) ops)) }
    ensures exact { (ops : List (Mark × Op)) → sizes (deltas (marked counter_op ops)) < 2 ^ 127 → value_of (fold_of (empty_of kind.Counter) ops) ≡ Number (sum_of ops) }
{}
