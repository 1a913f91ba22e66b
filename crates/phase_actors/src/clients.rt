// The clients of a phase, some of them in one thread, which take their steps in turns.
ghost use Rattle.std.specs.Prelude.{◌≡◌, ◌↔◌, ◌≤◌, ◌<◌, ◌-◌, map, length, IfOk, OnOk, IsTrue, All};
ghost use Rattle.std.specs.List.{AllZip};
ghost use Rattle.script_core.specs.Steps.{IsCount};
ghost use Rattle.client_stub.specs.Playing.{IsLinkBehind};
ghost use Rattle.run_table.specs.Dealing.{line_of};
ghost use Rattle.phase_actors.specs.Scenes.{IsScene};
ghost use Rattle.phase_actors.specs.Taps.{AreReaders, HaveRead};
ghost use Rattle.phase_actors.specs.Clients.{ClientAt, client_at, HasTurned, seat_of, HasStood};
ghost use Rattle.phase_actors.specs.Actors.{IsPlayerOf, IsBlockOf, HasBlockPlayed, IsSeatOf, IsLeftAt, HasTurnedSeat, HasSeatGone, HasEnded};

use crate::callers::Caller;
use crate::looking::take_step;
use crate::pace::Pace;
use crate::scene::Scene;
use client_stub::Stub;
use dc_host::HostDoor;
use dc_talk::{Door, Log};
use ids_core::NoMemory;
use io_edge::Gate;
use read_tap::TapReader;
use std::alloc::Global;
use std::marker::Model;
use std::sync::Wait;

/// A client, counted from 1, as a caller.
#[derive(Drop)]
pub struct Player {
    pub client: u32,
    pub caller: Caller,
    pub stub: Stub,
}

/// The clients of a thread, with a reader of each tap in the order of the centres.
#[derive(Drop)]
pub struct Block {
    pub players: Vec<Player>,
    pub readers: Vec<TapReader>,
}

// A client before a door to the centres, with its log, and how many of its steps it took.
#[derive(Drop)]
struct Seat<'a, R, G: Gate> {
    client: u32,
    stub: Stub,
    door: HostDoor<'a, R, G>,
    log: Log,
    taken: u32,
}

impl<'a, R, G: Gate> Model for Seat<'a, R, G> {
    ghost use Rattle.phase_actors.specs.Clients.{SeatView};
    ghost use Rattle.tx_core.specs.States.{state_codes};

    ghost Value = { SeatView };

    ghost coded = { Prim.hlevel state_codes };

    ghost view = { λ s. record { client = s.client; stub = s.stub; door = s.door; log = s.log; taken = s.taken } };
}

// A client takes its step of a turn's number through a door, where it has one, and looks by these readers.
fn take_turn<D: Door>(
    alloc: Global,
    scene: Scene<'_>,
    readers: &mut Vec<TapReader>,
    turn: u32,
    client: u32,
    stub: &mut Stub,
    door: &mut D,
    log: &mut Log,
) -> Result<(), NoMemory>
    requires scene { IsScene scene }
    requires readers { AreReaders scene.taps.now readers.old.items }
    requires turn { 1 ≤ turn }
    requires client { IsCount scene.script.now.clients client }
    requires own { stub.old.client.client ≡ client }
    requires centres { (D.shown door.old).centres ≡ scene.script.now.n }
    requires linked { IsLinkBehind (D.shown door.old) stub.old.client }
    ensures place { D.place door.new ≡ D.place door.old }
    ensures linked { IsLinkBehind (D.shown door.new) stub.new.client }
    ensures read { HaveRead readers.old.items readers.new.items }
    ensures own { OnOk result (stub.new.client.client ≡ client) }
    ensures turned { OnOk result ((first : ClientAt) → HasTurned scene.entry.taps.now readers.old.items scene.entry.section.now scene.entry.number (turn - 1) first (client_at client stub.old (D.shown door.old) log.old) → HasTurned scene.entry.taps.now readers.new.items scene.entry.section.now scene.entry.number turn first (client_at client stub.new (D.shown door.new) log.new)) }
{
    if let Some(step) = scene.dealt.client_step(client, turn) {
        log.set(scene.number, turn);
        take_step(alloc, scene.taps, readers, client, stub, door, &step, log)?;
    }
    Ok(())
}

// Whether a step is left to a client at its seat.
fn has_more<R, G: Gate>(scene: Scene<'_>, seat: &Seat<'_, R, G>) -> bool
    ensures { IsTrue result ↔ (seat.now.taken < length (line_of scene.entry.dealt.now seat.now.client)) }
{
    (seat.taken as usize) < scene.dealt.step_count(seat.client)
}

// Whether there is a client at this place to whom a step is left.
fn is_left<R, G: Gate>(scene: Scene<'_>, seats: &[Seat<'_, R, G>], place: usize) -> bool
    ensures { IsTrue result → IsLeftAt scene.entry seats.now place }
{
    match seats.get(place) {
        Some(seat) => has_more(scene, seat),
        None => false,
    }
}

// A client takes the next one of the steps that are left to it.
fn turn_one<'a, R: Wait, G: Gate>(
    alloc: Global,
    scene: Scene<'a>,
    readers: &mut Vec<TapReader>,
    seat: &mut Seat<'a, R, G>,
) -> Result<(), NoMemory>
    requires scene { IsScene scene }
    requires readers { AreReaders scene.taps.now readers.old.items }
    requires seat { IsSeatOf scene seat.old }
    requires left { seat.old.taken < length (line_of scene.dealt.now seat.old.client) }
    ensures read { HaveRead readers.old.items readers.new.items }
    ensures turned { OnOk result (HasTurnedSeat scene.entry readers.old.items readers.new.items seat.old seat.new) }
{
    let turn = seat.taken + 1;
    take_turn(
        alloc,
        scene,
        readers,
        turn,
        seat.client,
        &mut seat.stub,
        &mut seat.door,
        &mut seat.log,
    )?;
    seat.taken = turn;
    Ok(())
}

// The one at this place takes its next step, where one is left to it.
fn turn_at<'a, R: Wait, G: Gate>(
    alloc: Global,
    scene: Scene<'a>,
    place: usize,
    readers: &mut Vec<TapReader>,
    seats: &mut Vec<Seat<'a, R, G>>,
) -> Result<(), NoMemory>
    requires scene { IsScene scene }
    requires readers { AreReaders scene.taps.now readers.old.items }
    requires seats { All (IsSeatOf scene) seats.old.items }
    ensures read { HaveRead readers.old.items readers.new.items }
    ensures gone { OnOk result (AllZip (HasSeatGone scene.entry readers.old.items readers.new.items) seats.old.items seats.new.items) }
{
    if is_left(scene, seats.as_slice(), place) {
        turn_one(alloc, scene, readers, &mut seats[place])?;
    }
    Ok(())
}

// Those at these places, one after another. The others stay as they are.
fn turn_all<'a, R: Wait, G: Gate>(
    alloc: Global,
    scene: Scene<'a>,
    places: &[usize],
    readers: &mut Vec<TapReader>,
    seats: &mut Vec<Seat<'a, R, G>>,
) -> Result<(), NoMemory>
    requires scene { IsScene scene }
    requires readers { AreReaders scene.taps.now readers.old.items }
    requires seats { All (IsSeatOf scene) seats.old.items }
    ensures read { OnOk result (HaveRead readers.old.items readers.new.items) }
    ensures gone { OnOk result (AllZip (HasSeatGone scene.entry readers.old.items readers.new.items) seats.old.items seats.new.items) }
{
    'places: for place in places {
        turn_at(alloc, scene, *place, readers, seats)?;
    }
    Ok(())
}

// The places of so many seats.
fn places_of(alloc: Global, count: usize) -> Result<Vec<usize>, NoMemory> {
    let mut places = Vec::with_capacity(alloc, count)?;
    'places: for place in 0..count {
        places.push(place)?;
    }
    Ok(places)
}

// Turns of those to whom steps are left, while they are two or more. So a turn is no work for the others. Each step
// counts for the pace.
fn take_turns<'a, R: Wait, G: Gate>(
    alloc: Global,
    scene: Scene<'a>,
    pace: &Pace,
    readers: &mut Vec<TapReader>,
    seats: &mut Vec<Seat<'a, R, G>>,
) -> Result<(), NoMemory>
    requires scene { IsScene scene }
    requires readers { AreReaders scene.taps.now readers.old.items }
    requires seats { All (IsSeatOf scene) seats.old.items }
    ensures read { OnOk result (HaveRead readers.old.items readers.new.items) }
    ensures gone { OnOk result (AllZip (HasSeatGone scene.entry readers.old.items readers.new.items) seats.old.items seats.new.items) }
{
    let mut places = places_of(alloc, seats.len())?;
    'turns: for _turn in 0..scene.dealt.longest() {
        let now = seats.as_slice();
        places.retain(|place| is_left(scene, now, *place));
        if places.len() < 2 {
            break;
        }
        turn_all(alloc, scene, places.as_slice(), readers, seats)?;
        pace.advance(places.len() as u64);
    }
    Ok(())
}

// A client before a new door of its passes.
fn sit<'a, R: Wait, G: Gate>(
    rt: &'a R,
    scene: Scene<'a>,
    gate: &'a G,
    player: Player,
) -> Seat<'a, R, G>
    requires scene { IsScene scene }
    requires player { IsPlayerOf scene player }
    ensures is { IsSeatOf scene.entry result }
    ensures seat { result ≡ seat_of player }
{
    let Player {
        client,
        caller,
        stub,
    } = player;
    let Caller { row, log } = caller;
    let door = HostDoor::new(rt, scene.hosts, row, log.actor(), gate);
    Seat {
        client,
        stub,
        door,
        log,
        taken: 0,
    }
}

// Its passes, its log and its stub back.
fn stand<R, G: Gate>(seat: Seat<'_, R, G>) -> Player
    ensures { HasStood seat.entry result }
{
    let Seat {
        client,
        stub,
        door,
        log,
        taken: _,
    } = seat;
    Player {
        client,
        caller: Caller {
            row: door.part(),
            log,
        },
        stub,
    }
}

// All of them before new doors.
fn sit_all<'a, R: Wait, G: Gate>(
    rt: &'a R,
    alloc: Global,
    scene: Scene<'a>,
    gate: &'a G,
    players: Vec<Player>,
) -> Result<Vec<Seat<'a, R, G>>, NoMemory>
    requires scene { IsScene scene }
    requires players { All (IsPlayerOf scene) players.items }
    ensures are { IfOk result (λ seats. All (IsSeatOf scene.entry) seats.items) }
    ensures seats { IfOk result (λ seats. seats.items ≡ map seat_of players.items) }
{
    let mut seats = Vec::with_capacity(alloc, players.len())?;
    'players: for player in players {
        seats.push(sit(rt, scene, gate, player))?;
    }
    Ok(seats)
}

// A client takes the steps that are left to it, and gets up.
fn end_one<'a, R: Wait, G: Gate>(
    alloc: Global,
    scene: Scene<'a>,
    pace: &Pace,
    readers: &mut Vec<TapReader>,
    seat: Seat<'a, R, G>,
) -> Result<Player, NoMemory>
    requires scene { IsScene scene }
    requires readers { AreReaders scene.taps.now readers.old.items }
    requires seat { IsSeatOf scene seat }
    ensures read { OnOk result (HaveRead readers.old.items readers.new.items) }
    ensures ended { IfOk result (HasEnded scene.entry readers.old.items readers.new.items seat.entry) }
{
    let mut at = seat;
    'steps: while has_more(scene, &at) {
        turn_one(alloc, scene, readers, &mut at)?;
        pace.advance(1);
    }
    Ok(stand(at))
}

// All of them, one after another.
fn end_all<'a, R: Wait, G: Gate>(
    alloc: Global,
    scene: Scene<'a>,
    pace: &Pace,
    readers: &mut Vec<TapReader>,
    seats: Vec<Seat<'a, R, G>>,
) -> Result<Vec<Player>, NoMemory>
    requires scene { IsScene scene }
    requires readers { AreReaders scene.taps.now readers.old.items }
    requires seats { All (IsSeatOf scene) seats.items }
    ensures read { OnOk result (HaveRead readers.old.items readers.new.items) }
    ensures ended { IfOk result (λ players. AllZip (HasEnded scene.entry readers.old.items readers.new.items) seats.entry.items players.items) }
{
    let mut players = Vec::with_capacity(alloc, seats.len())?;
    'seats: for seat in seats {
        players.push(end_one(alloc, scene, pace, readers, seat)?)?;
    }
    Ok(players)
}

/// The steps of some clients over the hosts, taken in turns in one thread: each client is a caller of its own. They look by
/// the readers that they have together. The last one to whom steps are left takes them alone. After an `Err`, want of
/// memory, their passes and the readers are gone.
pub fn play_clients<R: Wait, G: Gate>(
    rt: &R,
    alloc: Global,
    scene: Scene<'_>,
    gate: &G,
    pace: &Pace,
    block: Block,
) -> Result<Block, NoMemory>
    requires scene { IsScene scene }
    requires block { IsBlockOf scene block }
    ensures { IfOk result (HasBlockPlayed scene.entry block) }
{
    let Block {
        players,
        mut readers,
    } = block;
    let mut seats = sit_all(rt, alloc, scene, gate, players)?;
    take_turns(alloc, scene, pace, &mut readers, &mut seats)?;
    let players = end_all(alloc, scene, pace, &mut readers, seats)?;
    Ok(Block { players, readers })
}
