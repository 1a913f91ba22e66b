// The laws of the books of runs. Each is a function with nothing to do, whose contract is the law.
ghost use Rattle.std.specs.Prelude.{◌≡◌, ℕ, List, Ok};
ghost use Rattle.script_core.specs.declared.script.Script.{Script};
ghost use Rattle.script_core.specs.Scripts.{IsInRange};
ghost use Rattle.script_reader.specs.Scripts.{script_read};
ghost use Rattle.run_sections.specs.Runs.{IsSectionRunOf, HasNoPhase};
ghost use Rattle.run_sections.specs.OneThread.{IsRunOf};
ghost use Rattle.run_book.specs.Setups.{setup_of};
ghost use Rattle.run_laws.specs.OneBook.{AreOne};
ghost use Rattle.run_laws.specs.ReadLines.{TellsValues};
ghost use Rattle.run_laws.specs.Looks.{ShowsTaps, ShowsLast};

use run_book::Book;

/// A script has one book on one thread: two books that are runs of it there have the same trails, logs of the same
/// actors with the same notes, and the same text. What a log says of where its actor stands last is left out: no run is
/// asked for it.
pub fn law_one_book(book: &Book, other: &Book)
    ensures { (script : Script) → IsRunOf script book.now → IsRunOf script other.now → AreOne book.now other.now }
{}

/// A script without a phase has one book, whether it is played section by section, with threads wherever there is a phase,
/// or on one thread: two books that are runs of it, each in either way, are one.
pub fn law_no_phase(book: &Book, other: &Book)
    ensures alike { (script : Script) → IsInRange script → HasNoPhase script → IsSectionRunOf script book.now → IsRunOf script other.now → AreOne book.now other.now }
    ensures again { (script : Script) → IsInRange script → HasNoPhase script → IsSectionRunOf script book.now → IsSectionRunOf script other.now → AreOne book.now other.now }
{}

/// The bytes of a script are one script: what they say can be read in one way alone.
pub fn law_one_script()
    ensures { (bytes : List ℕ) (s t : Script) → script_read bytes ≡ Ok s → script_read bytes ≡ Ok t → s ≡ t }
{}

/// The text of a run tells the values that its clients read: each line with a value is of a read of that client, of that
/// object and with that value, and each read that got a value has its line, where it is of no cell of a bounded counter. In
/// the notes of a client these lines are one for each read, in the order of the reads, but for parts with no such line that
/// read cells alone; and each stands right behind its read, and on what that stands on. So it is of a run on one thread
/// (`turns`) and of one section by section, with threads in its phases (`sections`).
pub fn law_value_lines(book: &Book)
    ensures turns { (script : Script) → IsRunOf script book.now → TellsValues book.now (setup_of script) }
    ensures sections { (script : Script) → IsSectionRunOf script book.now → TellsValues book.now (setup_of script) }
{}

/// Each line of a look is of the client in whose log it stands, and shows what the tap of its centre has of the object in
/// one of the shows of that centre: the opening one, or what a feed found. In a run section by section (`sections`) that is
/// a show that is there by the end of the line's section, no earlier one than the last of the earlier sections, and no
/// earlier one than the client saw there before. In a run on one thread (`turns`) it is the last show in front of the
/// line's step: of an earlier section, or of an earlier step of its own.
pub fn law_looks(book: &Book)
    ensures turns { (script : Script) → IsInRange script → IsRunOf script book.now → ShowsLast script book.now }
    ensures sections { (script : Script) → IsInRange script → IsSectionRunOf script book.now → ShowsTaps script book.now }
{}
