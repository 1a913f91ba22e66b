// The law of the entries that may be left out of a trail. It is a function with nothing to do, whose contract is the law.
ghost use Rattle.std.specs.Prelude.{◌≡◌, List};
ghost use Rattle.dc_talk.specs.declared.settings.Settings.{Settings};
ghost use Rattle.dc_talk.specs.Entries.{Entry};
ghost use Rattle.dc_talk.specs.declared.ask.Ask.{Ask};
ghost use Rattle.dc_talk.specs.Answers.{History, answer};
ghost use Rattle.trail_kept.specs.Kept.{kept, IsSameState};

/// Without its entries of the other replies a trail leaves a centre in the same state and its answers as they are, and
/// a history stays one.
pub fn law_left_out()
    ensures state { (s : Settings) (trail : List Entry) → IsSameState s (kept trail) trail }
    ensures answers { (s : Settings) (trail : List Entry) (ask : Ask) → answer s (kept trail) ask ≡ answer s trail ask }
    ensures history { (s : Settings) (trail : List Entry) → History s trail → History s (kept trail) }
{}
