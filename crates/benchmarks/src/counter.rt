// The counters of the benchmarks.
ghost use Rattle.std.specs.Prelude.{◌≡◌, IfOk};
ghost use Rattle.ids_core.specs.declared.object.Sort.TheVariants as sort;

use ids_core::{BadName, Name, ObjectId, Sort};

/// The counter of that name.
pub fn counter(name: &[u8]) -> Result<ObjectId, BadName>
    ensures { IfOk result (λ object. object ≡ record { sort = sort.Counter; name = name.now }) }
{
    Ok(ObjectId {
        sort: Sort::Counter,
        name: Name::read(name)?,
    })
}
