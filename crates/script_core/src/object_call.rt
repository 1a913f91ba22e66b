// A call on an object.
use dc_talk::{Call, StepWord};
use ids_core::ObjectId;

/// A call on an object, with the word of the step that makes it, and the object that the lines of the step name: a
/// bounded counter where the call is on one of its cells, and else the object itself.
#[derive(Clone, Copy)]
pub struct ObjectCall {
    pub word: StepWord,
    pub shown: ObjectId,
    pub object: ObjectId,
    pub call: Call,
}
