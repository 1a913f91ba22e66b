// What the faults of a link make of an item.
ghost use Rattle.std.specs.Prelude.{◌≡◌};
ghost use Rattle.link_frames.specs.Spoiling.{cut_of, bent_of};

/// Takes the last byte of an item away. An item without bytes stays as it is.
pub fn cut(item: &mut Vec<u8>)
    ensures { item.new.items ≡ cut_of item.old.items }
{
    item.pop();
}

/// Makes the second byte of an item 0. An item of fewer bytes stays as it is.
pub fn bend(item: &mut Vec<u8>)
    ensures { item.new.items ≡ bent_of item.old.items }
{
    if item.len() > 1 {
        item[1] = 0;
    }
}
