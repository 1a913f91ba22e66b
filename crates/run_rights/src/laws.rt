// The laws of bounded counters over books. Each is a function with nothing to do, whose contract is the law.
ghost use Rattle.std.specs.Prelude.{◌≡◌, ◌⊎◌, ◌++◌, ◌+◌, ◌≤◌, ◌+ℤ◌, ◌≤ℤ◌, ℕ, ℤ, pos, List, All, length};
ghost use Rattle.std.specs.Int.{w128, int_wrap};
ghost use Rattle.list_core.specs.Apart.{Apart};
ghost use Rattle.ids_core.specs.declared.ids.Dot.{Dot};
ghost use Rattle.ids_core.specs.declared.object.ObjectId.{ObjectId};
ghost use Rattle.obj_bounded.specs.CellNames.{gain_cells, loss_cells};
ghost use Rattle.dc_talk.specs.declared.line.Line.TheVariants.{RightsValue, Short};
ghost use Rattle.dc_talk.specs.declared.line.StepWord.{StepWord};
ghost use Rattle.dc_talk.specs.declared.log.Deed.{Deed};
ghost use Rattle.dc_talk.specs.Clients.{draft_updates};
ghost use Rattle.script_core.specs.declared.steps.ClientStep.{ClientStep};
ghost use Rattle.script_core.specs.declared.steps.Share.{Share};
ghost use Rattle.script_core.specs.Deeds.{Progress, StepDeeds, TakingDeeds};
ghost use Rattle.script_core.specs.Steps.{holders_of, IsCount};
ghost use Rattle.tx_graph.specs.Nodes.{Closed};
ghost use Rattle.run_book.specs.Setups.{Setup, setup_of};
ghost use Rattle.run_book.specs.Parts.{notes_of, IsClient};
ghost use Rattle.run_book.specs.Fit.{FitsWith};
ghost use Rattle.run_book.specs.Graphs.{graph, basis_at, client_at};
ghost use Rattle.run_steps.specs.Quiet.{IsQuiet};
ghost use Rattle.graph_rights.specs.Rights.{rights_by, rights_over, rights_in};
ghost use Rattle.run_rights.specs.Takings.{AreCounters, HasReadCells, ChecksTakings};
ghost use Rattle.run_rights.specs.Steps.{ChangesNone, Spares, TakesRights, GoesBySteps};
ghost use Rattle.run_rights.specs.Holders.{holder_rights, IsPlayOf, rights_seen, Tells, value_over};

use run_book::Book;
use script_core::Script;

/// Where the book fits, and its clients check what they take, a holder's rights are at least 0 over each causally closed
/// set of transactions, whichever these are.
pub fn law_bounded(book: &Book)
    ensures { (setup : Setup) (owner : ℕ) (gains losses : List ObjectId) (set : List Dot) → FitsWith book.now setup → Apart (λ (cell : ObjectId). cell) losses → ChecksTakings book.now setup owner gains losses → Closed (graph book.now setup) set → pos 0 ≤ℤ rights_over gains losses (graph book.now setup) set }
{}

/// Where the book fits, the rights by what was read of a holder's cells, one after another, are those over the basis and
/// the open updates, at the reads and at each place up to which nothing else was done. Of as many cells as a holder may
/// have their sum never wraps.
pub fn law_rights_read(book: &Book)
    ensures over { (setup : Setup) (a place : ℕ) (gains losses : List ObjectId) (value : ObjectId → ℤ) → FitsWith book.now setup → IsClient setup a → AreCounters gains losses → place ≤ length (notes_of book.now a) → HasReadCells book.now a place gains losses value →
        rights_by gains losses value ≡ rights_over gains losses (graph book.now setup) (basis_at book.now setup a place) +ℤ rights_in gains losses (draft_updates (client_at book.now setup a place)) }
    ensures fits { (setup : Setup) (a place : ℕ) (gains losses : List ObjectId) (value : ObjectId → ℤ) → FitsWith book.now setup → IsClient setup a → AreCounters gains losses → HasReadCells book.now a place gains losses value → length gains + length losses ≤ 16 →
        int_wrap w128 (rights_by gains losses value) ≡ rights_by gains losses value }
{}

/// In a book that fits, a log whose steps read all cells of a holder before a change that counts against it, and make it
/// only where there is as much, checks what it takes. A holder has 16 cells at most, so that the sum of what was read does
/// not wrap.
pub fn law_steps(book: &Book)
    ensures { (setup : Setup) (owner : ℕ) (gains losses : List ObjectId) → FitsWith book.now setup → length gains + length losses ≤ 16 → GoesBySteps book.now setup owner gains losses → ChecksTakings book.now setup owner gains losses }
{}

/// A step that takes from a share, or gives of it, reads all cells of the holder, one after another, and takes no more than
/// they tell; or it does nothing but reads and fetches, and tells a line.
pub fn law_takes()
    ensures { (come : Progress) (client owner : ℕ) (word : StepWord) (share : Share) (to amount : ℕ) (deeds : List Deed) → client ≡ owner → TakingDeeds come word share to amount deeds →
        All IsQuiet deeds ⊎ TakesRights client owner (gain_cells share.name share.holder share.holders) (loss_cells share.name share.holder share.holders) deeds }
{}

/// A step that changes none of some cells leaves no deed that does.
pub fn law_plain()
    ensures { (cells : List ObjectId) (come : Progress) (does : ClientStep) (deeds : List Deed) → Spares cells does → StepDeeds come does deeds → All (ChangesNone cells) deeds }
{}

/// In a book that fits a script in range and has its steps, on one thread or section by section, no holder of a bounded
/// counter, whatever its name, falls below 0 over any causally closed set of transactions (`held`), and so neither does the
/// counter (`value`) (Balegas and others, SRDS 2015). The rights that a line tells (`told`), and those that were short of
/// what was to be taken or given (`short`), are the client's own, over its basis at the line and by its open updates.
pub fn law_rights(book: &Book, script: &Script)
    ensures held { (name : List ℕ) (holder : ℕ) (set : List Dot) → IsPlayOf script.now book.now → IsCount (holders_of script.now.clients) holder → Closed (graph book.now (setup_of script.now)) set → pos 0 ≤ℤ holder_rights script.now book.now name holder set }
    ensures value { (name : List ℕ) (set : List Dot) → IsPlayOf script.now book.now → Closed (graph book.now (setup_of script.now)) set → pos 0 ≤ℤ value_over script.now book.now name set }
    ensures told { (a place client : ℕ) (counter : ObjectId) (rights : ℤ) → IsPlayOf script.now book.now → IsClient (setup_of script.now) a → Tells book.now a place (RightsValue client counter rights) →
        (client + 1 ≡ a) × (rights ≡ rights_seen script.now book.now counter.name client a place) }
    ensures short { (a place client : ℕ) (word : StepWord) (counter : ObjectId) (rights : ℤ) → IsPlayOf script.now book.now → IsClient (setup_of script.now) a → Tells book.now a place (Short client word counter rights) →
        (client + 1 ≡ a) × (rights ≡ rights_seen script.now book.now counter.name client a place) }
{}
