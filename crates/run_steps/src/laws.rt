// The laws of clients' steps. Each is a function with nothing to do, whose contract is the law.
ghost use Rattle.std.specs.Prelude.{◌≡◌, ◌+◌, ◌-◌, ◌<◌, ◌≤◌, ℕ, List, All, Some, length, take, slice_get};
ghost use Rattle.dc_talk.specs.declared.log.Deed.{Deed};
ghost use Rattle.dc_talk.specs.declared.log.Note.{Note};
ghost use Rattle.dc_talk.specs.Rule.{client_after};
ghost use Rattle.script_core.specs.declared.script.Script.{Script};
ghost use Rattle.script_core.specs.declared.steps.ClientStep.{ClientStep};
ghost use Rattle.script_core.specs.Deeds.{Progress, StepDeeds};
ghost use Rattle.run_book.specs.Setups.{setup_of};
ghost use Rattle.run_book.specs.Parts.{notes_of, IsClient};
ghost use Rattle.run_book.specs.Scripted.{HasSteps};
ghost use Rattle.run_sections.specs.Runs.{HasSectionSteps};
ghost use Rattle.run_steps.specs.Logs.{InSteps, AreStepDeeds};
ghost use Rattle.run_steps.specs.Calls.{IsDeedOf};
ghost use Rattle.run_steps.specs.Quiet.{IsQuiet, StandAlike};

use run_book::Book;

/// In a book with the steps of a script the log of a client is that of steps that the script has of it, one after another,
/// whether they were played on one thread or section by section, with threads in its phases.
pub fn law_chain(book: &Book)
    ensures one_thread { (script : Script) (a : ℕ) → HasSteps script book.now → IsClient (setup_of script) a → InSteps (AreStepDeeds script (a - 1)) (notes_of book.now a) }
    ensures sections { (script : Script) (a : ℕ) → HasSectionSteps script book.now → IsClient (setup_of script) a → InSteps (AreStepDeeds script (a - 1)) (notes_of book.now a) }
{}

/// Each deed of a step is an ask, a line, or one of the step's calls, however it ended.
pub fn law_each_deed()
    ensures { (come : Progress) (does : ClientStep) (deeds : List Deed) → StepDeeds come does deeds → All (IsDeedOf does) deeds }
{}

/// Reads, fetches and lines leave what a session stands on, and its open transaction: between two places of a log with
/// nothing but such notes between them, the client stands alike.
pub fn law_quiet()
    ensures { (n client capacity first count : ℕ) (notes : List Note) →
        ((p : ℕ) (note : Note) → first ≤ p → p < first + count → slice_get notes p ≡ Some note → IsQuiet note.deed) → first + count ≤ length notes →
        StandAlike (client_after n client capacity (take first notes)) (client_after n client capacity (take (first + count) notes)) }
{}
