// A centre with its journal in two files is asked what a trail has.
ghost use Rattle.std.specs.Prelude.{◌≡◌, ◌++◌, ◌⊎◌, false, List, IsOk, IsErrOf, OnOk};
ghost use Rattle.dc_talk.specs.Answers.{History};
ghost use Rattle.dc_talk.specs.Entries.{Entry as EntryOf};
ghost use Rattle.parts_frames.specs.Far.{HasFarRecord};
ghost use Rattle.pair_centre.specs.Open.{settings_of, is_shut};
ghost use Rattle.trail_pair.specs.Trails.{HasTrail, HasFailed, IsSmall};

use dc_talk::Entry;
use journal_disk::Disk;
use journal_file::JournalFault;
use pair_centre::PairCentre;
use std::alloc::Global;
use trail_journal::asks_in;

/// How many asks of a trail are made at once, behind one gate of the journal.
pub const GROUP: usize = 64;

/// Asks a centre all asks of a trail, group by group, and has it make a checkpoint before them, and behind each group,
/// where that is due. Where it stood for a front of a history, and these are the entries behind that, it stands for the
/// history then, and its live file is small, unless it has a record with more hops than a delivery may have. An `Err`
/// is that the call of a disk failed, or that memory ran out. It was then asked some of the first groups, and no clause
/// says which.
pub fn ask_trail<D: Disk>(
    alloc: Global,
    pair: &mut PairCentre<D>,
    trail: &[Entry],
) -> Result<(), JournalFault>
    requires { is_shut pair.old ≡ false }
    ensures stands { OnOk result ((front : List EntryOf) → HasTrail D.stands pair.old front → History (settings_of pair.old) (front ++ trail.now) → HasTrail D.stands pair.new (front ++ trail.now)) }
    ensures small { OnOk result ((front : List EntryOf) → HasTrail D.stands pair.old front → History (settings_of pair.old) (front ++ trail.now) → IsSmall pair.new ⊎ HasFarRecord (settings_of pair.new) (front ++ trail.now)) }
    ensures numbers { settings_of pair.new ≡ settings_of pair.old }
    ensures open { IsOk result → is_shut pair.new ≡ false }
    ensures no_shut { IsErrOf result JournalFault.Shut → ⊥ }
    ensures failed { IsErrOf result JournalFault.Disk → HasFailed D.faults pair.new }
{
    keep_small(pair)?;
    let mut rest = trail;
    'groups: while !rest.is_empty() {
        let (group, behind) = rest.split_at(rest.len().min(GROUP));
        ask_group(alloc, pair, group)?;
        keep_small(pair)?;
        rest = behind;
    }
    Ok(())
}

// Asks a centre all asks of a part of a trail at once.
fn ask_group<D: Disk>(
    alloc: Global,
    pair: &mut PairCentre<D>,
    group: &[Entry],
) -> Result<(), JournalFault>
    requires { is_shut pair.old ≡ false }
    ensures stands { OnOk result ((front : List EntryOf) → HasTrail D.stands pair.old front → History (settings_of pair.old) (front ++ group.now) → HasTrail D.stands pair.new (front ++ group.now)) }
    ensures numbers { settings_of pair.new ≡ settings_of pair.old }
    ensures open { IsOk result → is_shut pair.new ≡ false }
    ensures no_shut { IsErrOf result JournalFault.Shut → ⊥ }
    ensures failed { IsErrOf result JournalFault.Disk → HasFailed D.faults pair.new }
{
    let asks = asks_in(alloc, group)?;
    let says = pair.ask_all(&asks)?;
    if says.len() < group.len() {
        return Err(JournalFault::NoMemory);
    }
    Ok(())
}

// Has a centre make a checkpoint where that is due.
fn keep_small<D: Disk>(pair: &mut PairCentre<D>) -> Result<(), JournalFault>
    requires { is_shut pair.old ≡ false }
    ensures stands { OnOk result ((front : List EntryOf) → HasTrail D.stands pair.old front → HasTrail D.stands pair.new front) }
    ensures small { OnOk result ((front : List EntryOf) → HasTrail D.stands pair.old front → IsSmall pair.new ⊎ HasFarRecord (settings_of pair.new) front) }
    ensures numbers { settings_of pair.new ≡ settings_of pair.old }
    ensures open { IsOk result → is_shut pair.new ≡ false }
    ensures no_shut { IsErrOf result JournalFault.Shut → ⊥ }
    ensures failed { IsErrOf result JournalFault.Disk → HasFailed D.faults pair.new }
{
    if !pair.is_due() {
        return Ok(());
    }
    match pair.compact() {
        Ok(_) => Ok(()),
        Err(fault) => Err(fault),
    }
}
