// Random asks of three centres that have to answer alike, of which two come back from their journals. Between two openings
// there are the bytes of the journals alone.
use crate::asking::{LIMIT, ask_these, opened, with_journal};
use crate::cut::{Cut, told};
use crate::dice::Dice;
use crate::disks::{file_disk, fill_file, make_file, memory_disk};
use crate::fault::Fault;
use crate::says::{all_same, same};
use dc_centre::Centre;
use dc_journal::JournalCentre;
use dc_talk::{Ask, Say};
use file_disk::FileDisk;
use journal_disk::{Disk, MemoryDisk, SteadyDisk};
use std::alloc::Global;
use std::fs;
use std::fs::Files;

// A centre without a journal, and the bytes that the others' journals have; what was asked of these last, if a crash might
// have taken it. How many asks were made, how often what was cut short was kept, and how often it was lost.
#[derive(Drop)]
struct Trial {
    plain: Centre,
    bytes: Vec<u8>,
    cut: Cut,
    dice: Dice,
    asked: u64,
    kept: u64,
    lost: u64,
}

// Asks so many times ten asks, the last of which is cut short.
pub fn ask_tens<R: Files<File = fs::File> + Print + AllocGlobal>(
    rt: &R,
    path: &str,
    seed: u64,
    tens: u32,
) -> Result<(), Fault> {
    make_file(rt, path)?;
    let disk = with_journal(rt.alloc(), SteadyDisk::new(rt.alloc()))?;
    match Trial::new(rt.alloc(), seed, disk.bytes()) {
        Ok(trial) => {
            let mut trial = trial;
            trial.run(rt, path, tens)
        }
        Err(fault) => Err(fault),
    }
}

// A centre with a journal has to answer the same.
fn tells<D: Disk>(centre: &mut JournalCentre<D>, ask: &Ask, say: &Say) -> Result<(), Fault> {
    match centre.ask(ask) {
        Ok(other) => same(say, &other),
        Err(fault) => Err(fault.into()),
    }
}

// What a crash leaves at a moment, where each write since the last sync is kept or not.
fn left(
    alloc: Global,
    disk: &MemoryDisk,
    moment: usize,
    dice: &mut Dice,
) -> Result<Vec<u8>, Fault> {
    if moment > disk.moments() {
        return Err(Fault::Differs);
    }
    let keep = [dice.below(2) == 0, dice.below(2) == 0];
    let left = disk.after_crash(moment, &keep, dice.below(256) as u8)?;
    Ok(left.bytes().to_vec(alloc)?)
}

// How many calls of the disk that may change a file an opening makes.
const OPENING: usize = 3;

// And how many, at most, come behind it.
const MOST: usize = 100;

impl Trial {
    // Nothing was asked yet, and both journals have these bytes.
    fn new(alloc: Global, seed: u64, bytes: &[u8]) -> Result<Trial, Fault> {
        let bytes = bytes.to_vec(alloc)?;
        let cut = Cut::none(alloc, bytes.len() as u64);
        match Centre::new(alloc, 1, 2, 2, LIMIT) {
            Ok(plain) => Ok(Trial {
                plain,
                bytes,
                cut,
                dice: Dice::new(seed),
                asked: 0,
                kept: 0,
                lost: 0,
            }),
            Err(_) => Err(Fault::NoMemory),
        }
    }

    // Asks so many times ten asks, and looks at what the last crash left.
    fn run<R: Files<File = fs::File> + Print + AllocGlobal>(
        &mut self,
        rt: &R,
        path: &str,
        tens: u32,
    ) -> Result<(), Fault> {
        for ten in 0..tens {
            let last = if ten % 2 == 0 { 1 } else { 3 };
            self.ask_ten(rt, path, last)?;
            fill_file(rt, path, &self.bytes)?;
        }
        self.look(rt, path)?;
        let (asked, kept, lost, bytes) = (self.asked, self.kept, self.lost, self.cut.after);
        println!(rt; "asked {asked} kept {kept} lost {lost} bytes {bytes}")?;
        Ok(())
    }

    // Asks ten asks, of which the last are asked at once and cut short.
    fn ask_ten<R: Files<File = fs::File> + AllocGlobal>(
        &mut self,
        rt: &R,
        path: &str,
        last: u32,
    ) -> Result<(), Fault> {
        let disk = memory_disk(rt.alloc(), &self.bytes)?;
        let disk = self.visit(rt, path, disk, 10u32.saturating_sub(last), false)?;
        let begun = disk.moments().saturating_add(OPENING);
        let disk = self.visit(rt, path, disk, last, true)?;
        self.crash(rt.alloc(), &disk, begun)
    }

    // Opens both journals, and looks at what is there.
    fn look<R: Files<File = fs::File> + AllocGlobal>(
        &mut self,
        rt: &R,
        path: &str,
    ) -> Result<(), Fault> {
        let disk = memory_disk(rt.alloc(), &self.bytes)?;
        self.visit(rt, path, disk, 0, false)?;
        Ok(())
    }

    // A crash comes at a random moment from one on.
    fn crash(&mut self, alloc: Global, disk: &MemoryDisk, begun: usize) -> Result<(), Fault> {
        let more = disk.moments().saturating_sub(begun).min(MOST) as u32;
        let moment = begun.saturating_add(self.dice.below(more.saturating_add(1)) as usize);
        self.bytes = left(alloc, disk, moment, &mut self.dice)?;
        Ok(())
    }

    // Opens both journals, looks at what is there, and asks so many asks, one by one or at once. It gives the disk in memory
    // back.
    fn visit<R: Files<File = fs::File> + AllocGlobal>(
        &mut self,
        rt: &R,
        path: &str,
        disk: MemoryDisk,
        count: u32,
        at_once: bool,
    ) -> Result<MemoryDisk, Fault> {
        match opened(rt.alloc(), disk) {
            Ok(memory) => {
                let mut memory = memory;
                let done = self.visit_file(rt, path, &mut memory, count, at_once);
                let disk = memory.part();
                match done {
                    Ok(()) => Ok(disk),
                    Err(fault) => Err(fault),
                }
            }
            Err(fault) => Err(fault),
        }
    }

    // The same where the journal in memory is open.
    fn visit_file<R: Files<File = fs::File> + AllocGlobal>(
        &mut self,
        rt: &R,
        path: &str,
        memory: &mut JournalCentre<MemoryDisk>,
        count: u32,
        at_once: bool,
    ) -> Result<(), Fault> {
        match opened(rt.alloc(), file_disk(rt, path)?) {
            Ok(file) => {
                let mut file = file;
                self.visit_both(rt.alloc(), memory, &mut file, count, at_once)
            }
            Err(fault) => Err(fault),
        }
    }

    // The same where both are open.
    fn visit_both(
        &mut self,
        alloc: Global,
        memory: &mut JournalCentre<MemoryDisk>,
        file: &mut JournalCentre<FileDisk>,
        count: u32,
        at_once: bool,
    ) -> Result<(), Fault> {
        self.settle(alloc, memory.size(), file.size())?;
        self.check(memory, file)?;
        if at_once {
            self.cut_short(alloc, memory, file, count)
        } else {
            self.ask_some(alloc, memory, file, count)
        }
    }

    // The journals have all asks that were cut short, or none.
    fn settle(&mut self, alloc: Global, memory: u64, file: u64) -> Result<(), Fault> {
        if memory != file || !self.cut.may_leave(memory) {
            return Err(Fault::Differs);
        }
        if memory == self.cut.after {
            self.cut.tell(alloc, &mut self.plain, &mut self.dice)?;
        }
        if self.cut.before != self.cut.after {
            self.count(memory == self.cut.after);
        }
        Ok(())
    }

    // Counts a crash.
    fn count(&mut self, kept: bool) {
        if kept {
            self.kept = self.kept.saturating_add(1);
        } else {
            self.lost = self.lost.saturating_add(1);
        }
    }

    // The three have the same records.
    fn check(
        &self,
        memory: &JournalCentre<MemoryDisk>,
        file: &JournalCentre<FileDisk>,
    ) -> Result<(), Fault> {
        let vector = self.plain.vector();
        if memory.vector() == vector && file.vector() == vector {
            Ok(())
        } else {
            Err(Fault::Differs)
        }
    }

    // Asks both so many asks at once, which are cut short.
    fn cut_short(
        &mut self,
        alloc: Global,
        memory: &mut JournalCentre<MemoryDisk>,
        file: &mut JournalCentre<FileDisk>,
        count: u32,
    ) -> Result<(), Fault> {
        let before = memory.size();
        let asks = self.dice.asks(alloc, count)?;
        let says = both(alloc, memory, file, &asks)?;
        self.cut = Cut {
            asks,
            says,
            before,
            after: memory.size(),
        };
        self.asked = self.asked.saturating_add(u64::from(count));
        Ok(())
    }

    // Asks all three so many asks, one by one, of which nothing is cut short.
    fn ask_some(
        &mut self,
        alloc: Global,
        memory: &mut JournalCentre<MemoryDisk>,
        file: &mut JournalCentre<FileDisk>,
        count: u32,
    ) -> Result<(), Fault> {
        for _ in 0..count {
            self.ask(alloc, memory, file)?;
            self.check(memory, file)?;
        }
        self.cut = Cut::none(alloc, memory.size());
        self.asked = self.asked.saturating_add(u64::from(count));
        Ok(())
    }

    // Asks all three a random ask.
    fn ask(
        &mut self,
        alloc: Global,
        memory: &mut JournalCentre<MemoryDisk>,
        file: &mut JournalCentre<FileDisk>,
    ) -> Result<(), Fault> {
        let ask = self.dice.ask(alloc)?;
        let say = told(alloc, &mut self.plain, &ask)?;
        tells(memory, &ask, &say)?;
        tells(file, &ask, &say)?;
        self.dice.note(&ask, &say);
        Ok(())
    }
}

// What both centres answer to asks at once.
fn both(
    alloc: Global,
    memory: &mut JournalCentre<MemoryDisk>,
    file: &mut JournalCentre<FileDisk>,
    asks: &[Ask],
) -> Result<Vec<Say>, Fault> {
    let says = ask_these(alloc, memory, asks)?;
    match ask_these(alloc, file, asks) {
        Ok(others) => match all_same(&says, &others) {
            Ok(()) => Ok(says),
            Err(fault) => Err(fault),
        },
        Err(fault) => Err(fault),
    }
}
