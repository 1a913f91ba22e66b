// Appends that are cut short at each of their calls of the disk.
ghost use Rattle.std.specs.Prelude.{◌∷◌, []};

use journal_disk::{MemoryDisk, SteadyDisk};
use journal_file::{Item, Journal, JournalFault};
use std::alloc::{AllocError, Global};
use std::test::Fail;

// One byte.
#[derive(Clone, Copy, Debug, PartialEq, Eq)]
struct Mark(u8);

impl Item for Mark {
    ghost spelled = { λ m. m.0 ∷ [] };

    fn spell(&self, out: &mut Vec<u8>) -> Result<(), AllocError> {
        out.push(self.0)?;
        Ok(())
    }

    fn read(_alloc: Global, bytes: &[u8]) -> Result<Option<(Self, usize)>, AllocError> {
        match bytes {
            [first, ..] => Ok(Some((Mark(*first), 1))),
            [] => Ok(None),
        }
    }
}

// A new journal on a disk that fails at the calls with these numbers.
fn created(alloc: Global, fails: Vec<u64>) -> Result<Journal<MemoryDisk>, Fail> {
    match Journal::create(alloc, MemoryDisk::new(alloc, fails)) {
        Ok(journal) => Ok(journal),
        Err(_) => Err(Fail::from("not created")),
    }
}

// The marks that are found after a crash at a moment of a disk, where each write since the last sync left ones.
fn found(alloc: Global, disk: &MemoryDisk, moment: usize) -> Result<Vec<Mark>, Fail> {
    if moment > disk.moments() {
        return Err(Fail::from("no such moment"));
    }
    let left = disk.after_crash(moment, &[false, false, false], 1)?;
    match Journal::<SteadyDisk>::open::<Mark>(alloc, left) {
        Ok((_, marks)) => Ok(marks),
        Err(_) => Err(Fail::from("not opened")),
    }
}

#[test]
fn a_crash_leaves_the_old_marks_or_all(rt: HostRuntime) -> Result<(), Fail> {
    let alloc = rt.alloc();
    let mut journal = created(alloc, Vec::new(alloc))?;
    journal.append(&[Mark(7)]).ok().ok_or("no append")?;
    journal.append(&[Mark(8), Mark(9)]).ok().ok_or("no append")?;
    let disk = journal.part();
    assert_eq!(rt; disk.moments(), 13);
    for moment in 9..12 {
        assert_eq!(rt;
            found(alloc, &disk, moment)?.as_slice(),
            [Mark(7)].as_slice()
        );
    }
    let all = [Mark(7), Mark(8), Mark(9)];
    assert_eq!(rt; found(alloc, &disk, 12)?.as_slice(), all.as_slice());
    assert_eq!(rt; found(alloc, &disk, 13)?.as_slice(), all.as_slice());
    Ok(())
}

#[test]
fn a_failed_call_shuts_the_journal(rt: HostRuntime) -> Result<(), Fail> {
    let alloc = rt.alloc();
    for (call, left) in [(6, 0), (7, 0), (8, 1), (9, 1)] {
        let mut journal = created(alloc, vec![in alloc; call]?)?;
        assert_eq!(rt; journal.append(&[Mark(7)]), Err(JournalFault::Disk));
        assert_eq!(rt; journal.append(&[Mark(8)]), Err(JournalFault::Shut));
        let disk = journal.part();
        assert_eq!(rt; found(alloc, &disk, disk.moments())?.len(), left);
    }
    Ok(())
}
