// The laws of books. Each is a function with nothing to do, whose contract is the law.
ghost use Rattle.std.specs.Prelude.{◌≡◌, ◌≢◌, ◌≤◌, ◌+◌, ◌-◌, ℕ, true, List, Some, take};
ghost use Rattle.list_core.specs.Members.{In};
ghost use Rattle.ids_core.specs.declared.object.ObjectId.{ObjectId};
ghost use Rattle.vv_core.specs.Vectors.{Covers};
ghost use Rattle.tx_core.specs.declared.tx.Tx.{Tx};
ghost use Rattle.tx_core.specs.declared.tx.Record.{Record};
ghost use Rattle.tx_core.specs.declared.state.State.{State};
ghost use Rattle.tx_core.specs.Checks.{IsFit};
ghost use Rattle.dc_talk.specs.declared.ask.Ask.TheVariants.{Hello, Refresh, Fetch, Delta, Commit, Deliver, Learn};
ghost use Rattle.dc_talk.specs.declared.say.Say.TheVariants.{Misfit, Down, Orphan, Object};
ghost use Rattle.dc_talk.specs.declared.calls.Connection.{Connection};
ghost use Rattle.dc_talk.specs.declared.log.Note.{Note};
ghost use Rattle.dc_talk.specs.Entries.{Entry};
ghost use Rattle.dc_talk.specs.Rule.{takes, client_after, commits_of, Follows};
ghost use Rattle.run_book.specs.Setups.{Setup};
ghost use Rattle.run_book.specs.Parts.{notes_of, IsClient};
ghost use Rattle.run_book.specs.Fit.{FitsWith};
ghost use Rattle.run_book.specs.Graphs.{basis_at, client_at, commits_at};
ghost use Rattle.run_book.specs.ReadValues.{object_read};
ghost use Rattle.run_book.specs.Causal.{IsCausal};
ghost use Rattle.run_book.specs.Refusals.{IsEntry, Exchange, Makes, IsPushAnswer, IsNoRefusal, IsFetched, IsToldSince, IsReached};
ghost use Rattle.run_book.specs.Laws.{HasSoundVectors, HasOneList, HasClosedBases, KeepsSessions, HasKnownBases, HasValues, Agrees, TakesSnapshots, KnowsPruned, HasFewHops};
ghost use Rattle.run_book.specs.Numbers.{HasNumbers};
ghost use Rattle.run_book.specs.declared.book.Book.{Book};
ghost use Rattle.run_book.specs.Refusals.{IsTimely};
ghost use Rattle.run_book.specs.Scripted.{HasSteps};
ghost use Rattle.run_book.specs.Happenings.{Happened, AreTogether, TrimsInTime, InRange, IsBookOf};
ghost use Rattle.run_book.specs.Moves.{moves_of};
ghost use Rattle.run_book.specs.Played.{Stage, HavePlayed};
ghost use Rattle.run_book.specs.Setups.{setup_of};
ghost use Rattle.script_core.specs.declared.script.Script.{Script};

use crate::book::Book;

/// A client after the first so many notes of a log that follows the session rule: it counts its commits,
/// those past its snapshot are pending, their numbers and ranks ascend, and neither the numbers nor the
/// clock pass 2^62. Its snapshot only grows, whatever it hears.
pub fn law_numbers()
    ensures numbers { (n client capacity : ℕ) (notes : List Note) →
        Follows n client capacity notes → (m : ℕ) →
        HasNumbers client (client_after n client capacity (take m notes)) (commits_of n client capacity (take m notes)) }
    ensures grows { (n client capacity m p : ℕ) (notes : List Note) → m ≤ p →
        Covers (client_after n client capacity (take p notes)).vector (client_after n client capacity (take m notes)).vector }
{}

/// Where the book fits, its vectors are sound at each moment: none covers more than there is, and each
/// covers what it covers depends on.
pub fn law_sound(book: &Book)
    ensures { (setup : Setup) → FitsWith book.now setup → HasSoundVectors book.now setup }
{}

/// Where the book fits, all centres have one list of each centre's records, and records of one dot carry
/// one transaction.
pub fn law_one_list(book: &Book)
    ensures { (setup : Setup) → FitsWith book.now setup → HasOneList book.now }
{}

/// Where the book fits, its graph is well made, and each read stands on a causally closed set.
pub fn law_closed(book: &Book)
    ensures { (setup : Setup) → FitsWith book.now setup → HasClosedBases book.now setup }
{}

/// Where the book fits, the basis of a read holds those of the session's earlier reads and all that the
/// session committed by then.
pub fn law_session(book: &Book)
    ensures { (setup : Setup) → FitsWith book.now setup → KeepsSessions book.now setup }
{}

/// Where the book fits, what a read stands on, and is not the session's own, was known to K centres at a
/// snapshot that the session heard before.
pub fn law_known(book: &Book)
    ensures { (setup : Setup) → FitsWith book.now setup → HasKnownBases book.now setup }
{}

/// Where the book fits, each value that was read is that of its object over the basis of the read and the
/// open updates, by which update sees which (Shapiro and others, INRIA RR-7506).
pub fn law_value(book: &Book)
    ensures { (setup : Setup) → FitsWith book.now setup → HasValues book.now setup }
{}

/// A read that got a value leaves what its client stands on: at the note behind it, which may tell the value, the client
/// stands as it did at the read.
pub fn law_read_stands(book: &Book)
    ensures { (setup : Setup) (a m : ℕ) (object : ObjectId) → object_read book.now a m ≡ Some object → basis_at book.now setup a (m + 1) ≡ basis_at book.now setup a m }
{}

/// Where the book fits, two reads of an object over equal bases, with nothing open, give one value.
pub fn law_agree(book: &Book)
    ensures { (setup : Setup) → FitsWith book.now setup → Agrees book.now setup }
{}

/// Where the book fits, what is delivered and what is learned is taken for what it is: none is a misfit,
/// and nothing delivered is an orphan. The commits of sessions are fit, and a session's connected centre
/// has what the session's vector covers, and its commits up to what the link says. So of the asks that
/// the session rule gives, a push is answered with a stamp, or as known, for want of room, or by a stopped
/// centre; a refresh neither with a misfit nor for what is lacking; a fetch with a state where the session's
/// vector covers the base from which on the centre keeps states, and else with the least centre of which it does
/// not and both numbers, or by a stopped centre; a delta with what came since or a state where the vector from which
/// it goes covers that base, and else as a fetch; a hello not with a misfit.
/// A state is always taken, and so is each answer of a running centre to a delta; a snapshot where it has no more of
/// the session's commits than it had made.
pub fn law_refusals(book: &Book)
    ensures orphan { (setup : Setup) (i number have : ℕ) (entry : Entry) → FitsWith book.now setup → IsEntry book.now i entry → entry.say ≢ Orphan number have }
    ensures deliver { (setup : Setup) (i : ℕ) (entry : Entry) (item : Record) (hops : ℕ) → FitsWith book.now setup → IsEntry book.now i entry → entry.ask ≡ Deliver item hops → entry.say ≢ Misfit }
    ensures learn { (setup : Setup) (i from : ℕ) (entry : Entry) (news : List ℕ) → FitsWith book.now setup → IsEntry book.now i entry → entry.ask ≡ Learn from news → entry.say ≢ Misfit }
    ensures fit { (setup : Setup) (a m : ℕ) (tx : Tx) → FitsWith book.now setup → IsClient setup a → In tx (commits_at book.now setup a m) → IsFit book.now.n tx }
    ensures linked { (setup : Setup) (a m : ℕ) (link : Connection) → FitsWith book.now setup → IsClient setup a → (client_at book.now setup a m).link ≡ Some link → IsReached book.now a (take m (notes_of book.now a)) (client_at book.now setup a m).vector link }
    ensures push { (setup : Setup) (x : Exchange) (tx : Tx) → FitsWith book.now setup → Makes book.now setup x → x.ask ≡ Commit tx → IsPushAnswer x.answer }
    ensures refresh { (setup : Setup) (x : Exchange) (client : ℕ) (here : List ℕ) → FitsWith book.now setup → Makes book.now setup x → x.ask ≡ Refresh client here → IsNoRefusal x.answer }
    ensures fetch { (setup : Setup) (x : Exchange) (o : ObjectId) (here : List ℕ) → FitsWith book.now setup → Makes book.now setup x → x.ask ≡ Fetch o here → IsFetched book.now setup x here }
    ensures delta { (setup : Setup) (x : Exchange) (o : ObjectId) (from here : List ℕ) → FitsWith book.now setup → Makes book.now setup x → x.ask ≡ Delta o from here → IsToldSince book.now setup x from }
    ensures hello { (setup : Setup) (x : Exchange) (client : ℕ) (need : List ℕ) → FitsWith book.now setup → Makes book.now setup x → x.ask ≡ Hello client need → x.answer ≢ Misfit }
    ensures object { (setup : Setup) (x : Exchange) (o : ObjectId) (here : List ℕ) (state : State) → FitsWith book.now setup → Makes book.now setup x → x.ask ≡ Fetch o here → x.answer ≡ Object state → takes (client_at book.now setup x.actor x.place) x.centre x.ask x.answer ≡ true }
    ensures delta_taken { (setup : Setup) (x : Exchange) (o : ObjectId) (from here : List ℕ) → FitsWith book.now setup → Makes book.now setup x → x.ask ≡ Delta o from here → x.answer ≢ Down → takes (client_at book.now setup x.actor x.place) x.centre x.ask x.answer ≡ true }
    ensures snap { (setup : Setup) → FitsWith book.now setup → TakesSnapshots book.now setup }
{}

/// Where the book fits, what its centres prune is known: K centres have what is folded into states, as far as the
/// centre was told, and every centre has had, and reported, the records that their centre let go.
pub fn law_pruned(book: &Book)
    ensures { (setup : Setup) → FitsWith book.now setup → KnowsPruned book.now setup }
{}

/// Where the book fits, no record that a centre has applied came there by as many deliveries as there are centres.
pub fn law_hops(book: &Book)
    ensures { (setup : Setup) → FitsWith book.now setup → HasFewHops book.now }
{}

/// A book that fits is causal (Zawirski and others, Middleware 2015). Asks and answers may be lost, and
/// copies of commits may come late.
pub fn law_causal(book: &Book)
    ensures { (setup : Setup) → FitsWith book.now setup → IsCausal book.now setup }
{}

/// What happened among several centres, one thing after another, each by the session rule or by the
/// operator or a worker, where each trail is a history: the book of it fits and is timely, and each record that a
/// centre says to have let go, every centre has by then, so that a send from where the report just before ends
/// asks for none of them. Where it happened by just the moves of a script, one after another, the book has the script's
/// steps.
pub fn law_together()
    ensures fits { (b : Book) (n k : ℕ) (setup : Setup) (all : List Happened) → InRange n k setup → IsBookOf b n k setup.clients all → AreTogether n k setup all → FitsWith b setup }
    ensures timely { (b : Book) (n k : ℕ) (setup : Setup) (all : List Happened) → IsBookOf b n k setup.clients all → AreTogether n k setup all → IsTimely b setup }
    ensures trims { (n k : ℕ) (setup : Setup) (all : List Happened) → AreTogether n k setup all → TrimsInTime n all }
    ensures steps { (script : Script) (b : Book) (n k : ℕ) (all : List Happened) (stage : Stage) → IsBookOf b n k script.clients all → AreTogether n k (setup_of script) all → HavePlayed script (moves_of script) all stage → HasSteps script b }
{}
