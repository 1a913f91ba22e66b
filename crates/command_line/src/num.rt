// Numbers as words.
ghost use Rattle.std.specs.Prelude.{◌≡◌, ◌≤◌, ◌↔◌, IfSome, IsTrue, Some, ℕ, decimal};
ghost use Rattle.command_line.specs.Forms.{most_num};

use crate::form::MOST_NUM;
use itoa::Buffer;

/// Whether the word is the number in decimal.
pub fn is_num(word: &str, num: u32) -> bool
    ensures { IsTrue result ↔ (word.now ≡ decimal num) }
{
    let mut buffer = Buffer::new();
    word == buffer.format(num)
}

/// The number from 1 to the greatest of which the word is the decimal text.
#[tactic(auto, using(crate::proofs::Numbers::parsed))]
pub fn num_of(word: &str) -> Option<u32>
    ensures found { (num : ℕ) → 1 ≤ num → num ≤ most_num → word.now ≡ decimal num → result ≡ Some num }
    ensures range { IfSome result (λ num. (1 ≤ num) × (num ≤ most_num)) }
{
    match word.parse::<u32>() {
        Ok(num) => {
            if num == 0 || num > MOST_NUM {
                None
            } else {
                Some(num)
            }
        }
        Err(_) => None,
    }
}
