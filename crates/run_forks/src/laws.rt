// The laws of moves. Each is a function with nothing to do, whose contract is the law.
ghost use Rattle.std.specs.Prelude.{◌≡◌, ℕ, List};
ghost use Rattle.dc_talk.specs.declared.sent.Sent.{Sent};
ghost use Rattle.dc_talk.specs.declared.links.Arrival.{Arrival};
ghost use Rattle.dc_talk.specs.declared.log.Deed.{Deed};
ghost use Rattle.script_core.specs.declared.taps.TapState.{TapState};
ghost use Rattle.script_core.specs.declared.steps.ClientStep.{ClientStep};
ghost use Rattle.script_core.specs.declared.steps.OperatorStep.{OperatorStep};
ghost use Rattle.script_core.specs.Deeds.{Progress, StepDeeds};
ghost use Rattle.script_core.specs.Orders.{OperatorDeeds};
ghost use Rattle.script_core.specs.Taps.{LooksSo, FeedsSo};
ghost use Rattle.script_core.specs.Rounds.{SenderDeeds, ReceiverDeeds, ReporterDeeds, PrunerDeeds};
ghost use Rattle.run_book.specs.Setups.{Setup};
ghost use Rattle.run_book.specs.Happenings.{Happened};
ghost use Rattle.run_book.specs.Moves.{Move};
ghost use Rattle.run_book.specs.Played.{Stage, Plays};
ghost use Rattle.run_forks.specs.Forks.{AreOneOrFork};
ghost use Rattle.run_forks.specs.Answered.{AreAnswered};

/// What a move leaves is fixed but for the answers of the centres. Deeds of one step, of a client that has come
/// equally far or of the operator among as many centres, where the taps of these show the same, and deeds of one round
/// of a worker, of a receiver to which the same items are due, are the same, or they are the same up to an ask to one
/// centre that was answered otherwise. So neither are the deeds of one the front of the other's.
pub fn law_forks()
    ensures client { (taps : ℕ → TapState) (client : ℕ) (p : Progress) (step : ClientStep) (ds es : List Deed) → StepDeeds p step ds → StepDeeds p step es → LooksSo taps client step ds → LooksSo taps client step es → AreOneOrFork ds es }
    ensures operator { (taps : ℕ → TapState) (n : ℕ) (step : OperatorStep) (ds es : List Deed) → OperatorDeeds n step ds → OperatorDeeds n step es → FeedsSo taps step ds → FeedsSo taps step es → AreOneOrFork ds es }
    ensures sender { (n i : ℕ) (ds es : List Deed) → SenderDeeds n i ds → SenderDeeds n i es → AreOneOrFork ds es }
    ensures receiver { (n j : ℕ) (due : ℕ → List (Arrival Sent)) (ds es : List Deed) → ReceiverDeeds n j due ds → ReceiverDeeds n j due es → AreOneOrFork ds es }
    ensures reporter { (n i : ℕ) (ds es : List Deed) → ReporterDeeds n i ds → ReporterDeeds n i es → AreOneOrFork ds es }
    ensures pruner { (i round : ℕ) (ds es : List Deed) → PrunerDeeds i round ds → PrunerDeeds i round es → AreOneOrFork ds es }
{}

/// What happens by the same moves from the same stage on, where each answer is the one that its centre gives, is the
/// same: every note of every actor, and in which order.
pub fn law_one_run()
    ensures { (n k clients : ℕ) (setup : Setup) (stage : Stage) (moves : List Move) (all again : List Happened) →
        Plays n clients stage moves all → Plays n clients stage moves again → AreAnswered n k setup all → AreAnswered n k setup again → all ≡ again }
{}
