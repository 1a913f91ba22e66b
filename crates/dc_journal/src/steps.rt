// One step of a centre.
ghost use Rattle.std.specs.Prelude.{◌≡◌, ◌++◌, ◌∷◌, [], List, ℕ, IfOk, OnErr};
ghost use Rattle.machine_trail.specs.History.{entry};
ghost use Rattle.dc_talk.specs.Answers.{answer};
ghost use Rattle.dc_talk.specs.Entries.{Entry};
ghost use Rattle.dc_centre.specs.Centre.{StandsFor};

use dc_centre::Centre;
use dc_talk::{Ask, Say};
use std::alloc::{AllocError, Global};

/// The answer of a centre to an ask, in one copy.
pub fn step(alloc: Global, centre: &mut Centre, ask: &Ask) -> Result<Say, AllocError>
    ensures answer { IfOk result (λ say. (trail : List Entry) → StandsFor centre.old trail → say ≡ answer centre.old.settings trail ask.now) }
    ensures stands { IfOk result (λ say. (trail : List Entry) (caller : ℕ) → StandsFor centre.old trail → StandsFor centre.new (trail ++ entry caller ask.now say ∷ [])) }
    ensures settings { centre.new.settings ≡ centre.old.settings }
    ensures err { OnErr result (centre.new ≡ centre.old) }
{
    match centre.step(alloc, ask) {
        Ok((say, _)) => Ok(say),
        Err(_) => Err(AllocError),
    }
}
