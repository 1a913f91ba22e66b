// Changes of objects, as clients ask for them.

use dc_talk::Change;
use ids_core::ObjectId;
use list_core::List;

/// A change of an object, as a client asked for it: an update without the identifiers that it is over.
#[derive(Clone, Copy)]
pub struct Edit {
    pub object: ObjectId,
    pub change: Change,
}

/// Changes in their order.
pub type Edits = List<Edit>;
