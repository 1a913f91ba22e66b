// The lines of made scripts.
ghost use Rattle.std.specs.Prelude.{◌≡◌, ◌++◌, OnOk, codes, decimal};
ghost use Rattle.load_maker.specs.Lines.{client_text, line_text};

use ids_core::NoMemory;
use itoa::Buffer;

/// A line of a made script. Clients and centres are counted from 1.
#[derive(Clone, Copy)]
pub enum Line {
    /// Three centres, of which two make an update stable.
    Centres,
    /// So many clients.
    Clients(u32),
    /// Four threads.
    Threads,
    /// Each worker makes 32 rounds in a phase.
    Rounds,
    Phase,
    End,
    Settle,
    Down(u32),
    Prune(u32),
    Up(u32),
    Connect { client: u32, centre: u32 },
    Begin(u32),
    /// A client adds its number to the counter of all transactions.
    IncTotal(u32),
    /// A client adds 1 to the other counter.
    IncSide(u32),
    /// A client writes a word to the register.
    SetNote { client: u32, word: u32 },
    /// A client adds a word to the set.
    AddCart { client: u32, word: u32 },
    /// A client puts a word at a key of the map.
    PutCart { client: u32, key: u32, word: u32 },
    /// A client reads the counter of all transactions.
    ReadTotal(u32),
    Commit(u32),
    Push(u32),
    Flush(u32),
    Refresh(u32),
}

/// Writes a line at the end, without its line feed. An `Err` leaves a part of the line there.
pub fn write_line(text: &mut Vec<u8>, line: Line) -> Result<(), NoMemory>
    ensures { OnOk result (text.new.items ≡ text.old.items ++ line_text line) }
{
    match line {
        Line::Centres => write_words(text, b"centres 3 k 2"),
        Line::Clients(clients) => write_named(text, b"clients ", clients),
        Line::Threads => write_words(text, b"threads 4"),
        Line::Rounds => write_words(text, b"rounds 32"),
        Line::Phase => write_words(text, b"phase"),
        Line::End => write_words(text, b"end"),
        Line::Settle => write_words(text, b"settle"),
        Line::Down(centre) => write_named(text, b"down ", centre),
        Line::Prune(centre) => write_named(text, b"prune ", centre),
        Line::Up(centre) => write_named(text, b"up ", centre),
        Line::Connect { client, centre } => write_step(text, client, b" connect ", centre),
        Line::Begin(client) => write_call(text, client, b" begin"),
        Line::IncTotal(client) => write_step(text, client, b" inc c.total ", client),
        Line::IncSide(client) => write_call(text, client, b" inc c.side 1"),
        Line::SetNote { client, word } => write_step(text, client, b" set r.note w", word),
        Line::AddCart { client, word } => write_step(text, client, b" add s.cart w", word),
        Line::PutCart { client, key, word } => {
            write_step(text, client, b" put m.cart k", key)?;
            write_named(text, b" w", word)
        }
        Line::ReadTotal(client) => write_call(text, client, b" read c.total"),
        Line::Commit(client) => write_call(text, client, b" commit"),
        Line::Push(client) => write_call(text, client, b" push"),
        Line::Flush(client) => write_call(text, client, b" flush"),
        Line::Refresh(client) => write_call(text, client, b" refresh"),
    }
}

fn write_words(text: &mut Vec<u8>, words: &[u8]) -> Result<(), NoMemory>
    ensures { OnOk result (text.new.items ≡ text.old.items ++ words.now) }
{
    text.extend_from_slice(words)?;
    Ok(())
}

// Words with a number behind them.
fn write_named(text: &mut Vec<u8>, words: &[u8], number: u32) -> Result<(), NoMemory>
    ensures { OnOk result (text.new.items ≡ text.old.items ++ (words.now ++ decimal number)) }
{
    let mut buffer = Buffer::new();
    text.extend_from_slice(words)?;
    text.extend_from_slice(buffer.format(number).as_bytes())?;
    Ok(())
}

// A client, and words behind it.
fn write_call(text: &mut Vec<u8>, client: u32, words: &[u8]) -> Result<(), NoMemory>
    ensures { OnOk result (text.new.items ≡ text.old.items ++ (client_text client ++ words.now)) }
{
    write_named(text, b"c", client)?;
    write_words(text, words)
}

// A client, and words with a number behind them.
fn write_step(text: &mut Vec<u8>, client: u32, words: &[u8], number: u32) -> Result<(), NoMemory>
    ensures { OnOk result (text.new.items ≡ text.old.items ++ (client_text client ++ (words.now ++ decimal number))) }
{
    write_named(text, b"c", client)?;
    write_named(text, words, number)
}
