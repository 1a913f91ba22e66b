// What the port of a tap shows its readers.
use left_right::Absorb;
use std::alloc::AllocError;

/// The place of the last show that is published. The first one has place 0.
#[derive(Clone, Copy)]
pub struct LastPlace(pub usize);

impl Absorb<usize> for LastPlace {
    type State = usize;

    ghost state = { λ last. last.0 };

    ghost applied = { λ before now. now };

    ghost never_fails = { Unit {0} };

    fn absorb_first(&mut self, operation: &usize, _other: &LastPlace) -> Result<(), AllocError> {
        self.0 = *operation;
        Ok(())
    }
}
