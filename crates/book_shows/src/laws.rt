// The law of the shows of a book: a function with nothing to do, whose contract is the law.
ghost use Rattle.script_core.specs.declared.script.Script.{Script};
ghost use Rattle.script_core.specs.Scripts.{IsInRange};
ghost use Rattle.run_sections.specs.OneThread.{IsRunOf};
ghost use Rattle.run_sections.specs.Runs.{IsSectionRunOf};
ghost use Rattle.book_shows.specs.Shows.{AreBookShows};

use run_book::Book;

/// In front of each section of a run, and behind the last one, the shows of each centre's tap are the opening one and shows
/// of the centre's trail, in its order: each has the base that a prune of the operator left there, and the states that the
/// tap's objects had there by then. So it is of a run on one thread (`turns`) and of one section by section (`sections`).
pub fn law_book_shows(book: &Book)
    ensures turns { (script : Script) → IsInRange script → IsRunOf script book.now → AreBookShows script book.now }
    ensures sections { (script : Script) → IsSectionRunOf script book.now → AreBookShows script book.now }
{}
