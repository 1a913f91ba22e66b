// Clients in blocks, one for each thread.
ghost use Rattle.std.specs.Prelude.{◌≡◌, ◌≤◌, min, length, flat_map, IfOk};
ghost use Rattle.phase_play.specs.Blocks.{AreEven, AreBlocks, ArePartsOf};

use ids_core::NoMemory;
use phase_actors::{Block, Player};
use read_tap::TapReader;
use std::alloc::Global;
use std::collections::VecDeque;

/// The clients of a phase in order, and for each of their threads a reader of each tap.
#[derive(Drop)]
pub(crate) struct Clients {
    pub(crate) players: Vec<Player>,
    pub(crate) rows: Vec<Vec<TapReader>>,
}

// Cuts clients into so many blocks, in order: the first ones have a client more, where they can't all have as many.
fn cut_into(alloc: Global, players: Vec<Player>, count: usize) -> Result<Vec<Vec<Player>>, NoMemory>
    requires some { 1 ≤ count }
    requires enough { count ≤ length players.items }
    ensures all { IfOk result (λ blocks. flat_map (λ block. block.items) blocks.items ≡ players.items) }
    ensures number { IfOk result (λ blocks. length blocks.items ≡ count) }
    ensures even { IfOk result (λ blocks. AreEven blocks.items) }
{
    let size = players.len() / count;
    let longer = players.len() % count;
    let mut blocks = Vec::with_capacity(alloc, count)?;
    let mut rest = players;
    'blocks: for place in 0..count {
        let long = size + longer.saturating_sub(place).min(1);
        let later = rest.split_off(long)?;
        blocks.push(rest)?;
        rest = later;
    }
    Ok(blocks)
}

/// Cuts clients into blocks for so many threads, in order: as many blocks as there are threads, or one for each client
/// where these are fewer. No block is empty, and their lengths differ by one at most.
pub(crate) fn cut(
    alloc: Global,
    players: Vec<Player>,
    threads: u32,
) -> Result<Vec<Vec<Player>>, NoMemory>
    requires { 1 ≤ threads }
    ensures all { IfOk result (λ blocks. flat_map (λ block. block.items) blocks.items ≡ players.items) }
    ensures number { IfOk result (λ blocks. length blocks.items ≡ min (length players.items) threads) }
    ensures even { IfOk result (λ blocks. AreEven blocks.items) }
{
    if players.is_empty() {
        return Ok(Vec::new(alloc));
    }
    let count = players.len().min(threads as usize);
    cut_into(alloc, players, count)
}

/// Puts blocks together, in order.
pub(crate) fn join_blocks(alloc: Global, blocks: Vec<Vec<Player>>) -> Result<Vec<Player>, NoMemory>
    ensures { IfOk result (λ players. players.items ≡ flat_map (λ block. block.items) blocks.items) }
{
    let mut players = Vec::new(alloc);
    'blocks: for mut block in blocks {
        players.append(&mut block)?;
    }
    Ok(players)
}

/// Gives each block its readers, in order.
pub(crate) fn with_readers(
    alloc: Global,
    blocks: Vec<Vec<Player>>,
    rows: Vec<Vec<TapReader>>,
) -> Result<Vec<Block>, NoMemory>
    requires { length rows.items ≡ length blocks.items }
    ensures { IfOk result (λ all. AreBlocks blocks.items rows.items all.items) }
{
    let mut rows = VecDeque::from(rows);
    let mut all = Vec::with_capacity(alloc, blocks.len())?;
    'blocks: for players in blocks {
        match rows.pop_front() {
            Some(readers) => all.push(Block { players, readers })?,
            None => unreachable!(),
        }
    }
    Ok(all)
}

/// Takes the readers of all blocks off, and puts their clients together, in order.
pub(crate) fn part_blocks(alloc: Global, blocks: Vec<Block>) -> Result<Clients, NoMemory>
    ensures { IfOk result (ArePartsOf blocks.items) }
{
    let mut players = Vec::with_capacity(alloc, blocks.len())?;
    let mut rows = Vec::with_capacity(alloc, blocks.len())?;
    'blocks: for block in blocks {
        players.push(block.players)?;
        rows.push(block.readers)?;
    }
    Ok(Clients {
        players: join_blocks(alloc, players)?,
        rows,
    })
}
