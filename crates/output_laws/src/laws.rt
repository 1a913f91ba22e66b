// The laws of what the program owes and prints. Each is a function with nothing to do, whose contract is the law.
ghost use Rattle.std.specs.Prelude.{ℕ, Bool, List, Option};
ghost use Rattle.command_line.specs.declared.form.Form.TheVariants.{Run, Serial};
ghost use Rattle.command_line.specs.Forms.{spelled};
ghost use Rattle.top_call.specs.Runs.{IsOwed};
ghost use Rattle.top_call.specs.declared.ending.Ended.{Ended};
ghost use Rattle.top_call.specs.declared.engine.Owed.{Owed};
ghost use Rattle.output_laws.specs.Outputs.{given_bytes, AreAlike, AreFixed, HaveNoPhase, IsWholeRun, PrintAlike};

/// The output of each form but `load`, and `run` of a script with a phase, follows from the input. What the program owes
/// for its words and the bytes of its input is one status, one text and one book (`owed`). Two runs by the same words,
/// with the same bytes as their input, in which neither reading nor writing nor memory failed, end with one status and one
/// book, and their sinks take the same text (`printed`).
pub fn law_one_output()
    ensures owed { (words : List (List ℕ)) (bytes : List ℕ) (taken again : Option (List ℕ)) (one two : Owed) → AreFixed words bytes → IsOwed (given_bytes words bytes taken) one → IsOwed (given_bytes words bytes again) two → AreAlike one two }
    ensures printed { (words : List (List ℕ)) (bytes : List ℕ) (taken again now later : Option (List ℕ)) (one two : Ended) → AreFixed words bytes → IsWholeRun words bytes taken one now → IsWholeRun words bytes again two later → PrintAlike one two taken again now later }
{}

/// Where an input is no script with a phase, `run` does what `serial` does, each with the trails or each without: the same
/// is owed for it (`owed`), and a run by the one and a run by the other in which nothing failed end with one status and one
/// book, and their sinks take the same text (`printed`).
pub fn law_run_as_serial()
    ensures owed { (trail : Bool) (bytes : List ℕ) (taken again : Option (List ℕ)) (one two : Owed) → HaveNoPhase bytes → IsOwed (given_bytes (spelled (Run trail)) bytes taken) one → IsOwed (given_bytes (spelled (Serial trail)) bytes again) two → AreAlike one two }
    ensures printed { (trail : Bool) (bytes : List ℕ) (taken again now later : Option (List ℕ)) (one two : Ended) → HaveNoPhase bytes → IsWholeRun (spelled (Run trail)) bytes taken one now → IsWholeRun (spelled (Serial trail)) bytes again two later → PrintAlike one two taken again now later }
{}
