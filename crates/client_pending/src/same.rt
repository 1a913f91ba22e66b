// Whether marked operations are the same.
ghost use Rattle.std.specs.Prelude.{◌≡◌, length, take};
ghost use Rattle.std.specs.Bool.{OnTrue};

use ids_core::{Mark, Tags};
use tx_core::Op;

// Whether the lists are the same: where it says yes, they are.
pub(crate) fn are_same(left: &[(Mark, Op)], right: &[(Mark, Op)]) -> bool
    ensures { OnTrue result (left.now ≡ right.now) }
{
    left.len() == right.len() && begin_alike(left, right)
}

// Whether the operations are the same as far as both lists go.
fn begin_alike(left: &[(Mark, Op)], right: &[(Mark, Op)]) -> bool
    requires { length left.now ≡ length right.now }
    ensures { OnTrue result (left.now ≡ right.now) }
{
    for (place, marked) in left.iter().enumerate() {
        if !is_same(marked, &right[place]) {
            return false;
        }
    }
    true
}

fn is_same(left: &(Mark, Op), right: &(Mark, Op)) -> bool
    ensures { OnTrue result (left.now ≡ right.now) }
{
    left.0 == right.0 && is_same_op(&left.1, &right.1)
}

fn is_same_op(left: &Op, right: &Op) -> bool
    ensures { OnTrue result (left.now ≡ right.now) }
{
    match left {
        Op::Inc { delta } => match right {
            Op::Inc { delta: other } => *delta == *other,
            _ => false,
        },
        Op::Write { word } => match right {
            Op::Write { word: other } => *word == *other,
            _ => false,
        },
        Op::Add { word, over } => match right {
            Op::Add {
                word: other,
                over: tags,
            } => *word == *other && are_same_tags(over, tags),
            _ => false,
        },
        Op::Remove { word, over } => match right {
            Op::Remove {
                word: other,
                over: tags,
            } => *word == *other && are_same_tags(over, tags),
            _ => false,
        },
        Op::Put { key, word, over } => match right {
            Op::Put {
                key: place,
                word: other,
                over: tags,
            } => *key == *place && *word == *other && are_same_tags(over, tags),
            _ => false,
        },
        Op::Erase { key, over } => match right {
            Op::Erase {
                key: place,
                over: tags,
            } => *key == *place && are_same_tags(over, tags),
            _ => false,
        },
    }
}

fn are_same_tags(left: &Tags, right: &Tags) -> bool
    ensures { OnTrue result (left.now ≡ right.now) }
{
    left.as_slice() == right.as_slice()
}
