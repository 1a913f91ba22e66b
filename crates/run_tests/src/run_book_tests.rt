// Books, and what they can be asked for.
use dc_talk::Log;
use ids_core::{Dot, NoMemory};
use machine_trail::Trail;
use run_book::Book;
use samples::counter;
use script_reader::parse;
use std::alloc::Global;
use std::process::Abort;
use std::test::Fail;
use tx_core::Value;
use world_core::serial;

// Puts a trail and two logs into a book.
fn fill(alloc: Global, book: &mut Book) -> Result<(), NoMemory> {
    book.trails.push(Trail::new(alloc))?;
    book.logs.push(Log::new(alloc, 1))?;
    book.logs.push(Log::new(alloc, 2))?;
    Ok(())
}

// How many trails a book has, and how many logs.
fn counts(book: &Book) -> (usize, usize) {
    (book.trails.as_slice().len(), book.logs.as_slice().len())
}

#[test]
fn a_book_has_its_trails_and_logs(rt: HostRuntime) -> Result<(), Fail> {
    let mut book = Book::new(rt.alloc(), 2, 1);
    fill(rt.alloc(), &mut book)?;
    assert!(rt; (book.n, book.k) == (2, 1));
    assert!(rt; counts(&book) == (1, 2));
    Ok(())
}

// The number that a read of client 1 has to give by the book, if the note is such a read.
fn number_read(alloc: Global, book: &Book, note: usize) -> Result<Option<i128>, NoMemory> {
    match &book.value_read(alloc, 1, note)? {
        Some(Value::Number(number)) => Ok(Some(*number)),
        _ => Ok(None),
    }
}

// The number that the counter has over these transactions, if it is one.
fn number_over(alloc: Global, book: &Book, dots: &[Dot]) -> Result<Option<i128>, Fail> {
    match &book.value_over(alloc, &counter("a")?, dots)? {
        Value::Number(number) => Ok(Some(*number)),
        _ => Ok(None),
    }
}

// Whether client 1 stands on its first transaction alone at a note.
fn stands_on_the_first(alloc: Global, book: &Book, note: usize) -> Result<bool, NoMemory> {
    let first = Dot {
        client: 1,
        number: 1,
    };
    Ok(book.basis(alloc, 1, note)?.as_slice() == [first].as_slice())
}

// The book of two transactions that add 5 and 2, with a read in the second one: the deeds of the client
// are the hello, its line, the begin, the change, the commit, its line, the begin, the change, the read
// that has to fetch, the fetch, the read, and its line.
fn ask(rt: &impl Abort, alloc: Global, book: &Book) -> Result<(), Fail> {
    assert!(rt; number_read(alloc, book, 10)? == Some(7));
    assert!(rt; number_read(alloc, book, 9)?.is_none());
    assert!(rt; stands_on_the_first(alloc, book, 10)?);
    assert!(rt; !stands_on_the_first(alloc, book, 4)?);
    let dots = book.basis(alloc, 1, 10)?;
    assert!(rt; number_over(alloc, book, dots.as_slice())? == Some(5));
    assert!(rt; number_over(alloc, book, &[])? == Some(0));
    Ok(())
}

// The book of a script.
fn played(alloc: Global, text: &[u8]) -> Result<Book, Fail> {
    let script = parse(alloc, text)?;
    Ok(serial(alloc, &script)?)
}

#[test]
fn a_book_tells_what_a_read_stands_on(rt: HostRuntime) -> Result<(), Fail> {
    let book = played(
        rt.alloc(),
        b"centres 1 k 1\nclients 1\nc1 connect 1\nc1 begin\nc1 inc c.a 5\nc1 commit\nc1 begin\nc1 inc c.a 2\nc1 read c.a\n",
    )?;
    ask(&rt, rt.alloc(), &book)
}
