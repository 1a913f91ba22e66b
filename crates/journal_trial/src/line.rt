// Numbered lines, as items of a journal.
ghost use Rattle.std.specs.Prelude.{◌∷◌, length};

use journal_file::Item;
use list_core::List;
use std::alloc::{AllocError, Global};

// The last decimal digits of a number, so many, the very last one first.
#[derive(Drop)]
pub struct Line {
    digits: List<u8>,
}

// A byte tells how many digits there are.
const MOST: usize = 255;

impl Line {
    pub fn new(alloc: Global, number: u64, length: u8) -> Result<Line, AllocError> {
        let mut digits = List::new(alloc);
        let mut rest = number;
        for _ in 0..length {
            digits.push(b'0' + (rest % 10) as u8)?;
            rest /= 10;
        }
        Ok(Line { digits })
    }

    // Whether these are the last digits of a number.
    pub fn tells(&self, number: u64) -> bool {
        let mut rest = number;
        for digit in self.digits.as_slice() {
            if *digit != b'0' + (rest % 10) as u8 {
                return false;
            }
            rest /= 10;
        }
        true
    }
}

impl Item for Line {
    // How many digits there are, and the digits.
    ghost spelled = { λ line. length line.digits ∷ line.digits };

    // More digits than a byte can tell are answered as want of memory.
    fn spell(&self, out: &mut Vec<u8>) -> Result<(), AllocError> {
        if self.digits.len() > MOST {
            return Err(AllocError);
        }
        out.push(self.digits.len() as u8)?;
        out.extend_from_slice(self.digits.as_slice())?;
        Ok(())
    }

    fn read(alloc: Global, bytes: &[u8]) -> Result<Option<(Self, usize)>, AllocError> {
        if bytes.is_empty() {
            return Ok(None);
        }
        let (count, rest) = (bytes[0] as usize, &bytes[1..]);
        if rest.len() < count {
            return Ok(None);
        }
        let digits = List::from_vec(rest[..count].to_vec(alloc)?);
        Ok(Some((Line { digits }, 1 + count)))
    }
}
