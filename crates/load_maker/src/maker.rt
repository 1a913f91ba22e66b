// A made script as it is written.
ghost use Rattle.std.specs.Prelude.{◌≡◌, ◌+◌, [], ◌∷◌, OnOk};
ghost use Rattle.load_maker.specs.Draws.{drawn, next_state};
ghost use Rattle.load_maker.specs.Made.{Makes, change, connect, fixed, outage};

use crate::draws::Draws;
use crate::line::{Line, write_line};
use ids_core::NoMemory;
use std::alloc::Global;

/// A script as far as it is written, and what is drawn next. Where a method ends with an `Err`, it has written a part
/// of its lines.
#[derive(Drop)]
pub struct Maker {
    pub text: Vec<u8>,
    pub draws: Draws,
}

impl Maker {
    /// No line is written, and the generator has this state.
    pub fn new(alloc: Global, state: u32) -> Maker
        ensures text { result.text.items ≡ [] }
        ensures state { result.draws.state ≡ state }
    {
        Maker {
            text: Vec::new(alloc),
            draws: Draws { state },
        }
    }

    /// Writes lines.
    pub fn put(&mut self, lines: &[Line]) -> Result<(), NoMemory>
        ensures { OnOk result (Makes (fixed lines.now ∷ []) self.old self.new) }
    {
        for line in lines {
            write_line(&mut self.text, *line)?;
            self.text.push(b'\n')?;
        }
        Ok(())
    }

    // Draws one of the three centres.
    fn centre(&mut self) -> u32
        ensures value { result ≡ 1 + drawn 3 self.old.draws.state }
        ensures state { self.new ≡ record self.old { draws = record { state = next_state self.old.draws.state } } }
    {
        1 + self.draws.below(3)
    }

    // Draws the number of a word.
    fn word(&mut self) -> u32
        ensures value { result ≡ drawn 50 self.old.draws.state }
        ensures state { self.new ≡ record self.old { draws = record { state = next_state self.old.draws.state } } }
    {
        self.draws.below(50)
    }

    // One centre is down while all are pruned.
    pub fn outage(&mut self) -> Result<(), NoMemory>
        ensures { OnOk result (Makes (outage ∷ []) self.old self.new) }
    {
        let centre = self.centre();
        self.put(&[
            Line::Down(centre),
            Line::Prune(1),
            Line::Prune(2),
            Line::Prune(3),
            Line::Up(centre),
        ])
    }

    // A client comes to one of the centres.
    pub fn connect(&mut self, client: u32) -> Result<(), NoMemory>
        ensures { OnOk result (Makes (connect client ∷ []) self.old self.new) }
    {
        let centre = self.centre();
        self.put(&[Line::Connect { client, centre }])
    }

    // A client changes something beside the counter of all transactions.
    pub fn change(&mut self, client: u32) -> Result<(), NoMemory>
        ensures { OnOk result (Makes (change client ∷ []) self.old self.new) }
    {
        match self.draws.below(4) {
            0 => self.put(&[Line::IncSide(client)]),
            1 => {
                let word = self.word();
                self.put(&[Line::SetNote { client, word }])
            }
            2 => {
                let word = self.word();
                self.put(&[Line::AddCart { client, word }])
            }
            _ => {
                let key = self.word();
                let word = self.word();
                self.put(&[Line::PutCart { client, key, word }])
            }
        }
    }
}
