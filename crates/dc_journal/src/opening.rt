// A centre is asked again what a journal has.
ghost use Rattle.std.specs.Prelude.{◌≡◌, ◌+◌, ◌<◌, ◌≤◌, ◌^◌, ◌⊎◌, true, false, List, [], ◌∷◌, ◌++◌, ℕ, length, is_ok, IfOk, IfErr, IfSome, IsNone};
ghost use Rattle.ids_core.specs.declared.limits.TheConstants.{MOST_CENTRES, MOST_RECORDS};
ghost use Rattle.journal_disk.specs.declared.disk.Moment.{Moment};
ghost use Rattle.journal_disk.specs.Disk.{seen, is_sound, MayLeave, IsSettled, Ran, HasRisen};
ghost use Rattle.dc_talk.specs.Answers.{History};
ghost use Rattle.dc_talk.specs.Entries.{Entry};
ghost use Rattle.dc_centre.specs.Centre.{StandsFor};
ghost use Rattle.trail_kept.specs.Kept.{is_kept};
ghost use Rattle.journal_file.specs.Faults.{IsBad};
ghost use Rattle.dc_journal.specs.Files.{numbers, IsFileOf, IsFound, IsBadGate, HasTaken};
ghost use Rattle.dc_journal.specs.Replays.{TakesFirst, TakesAll};

use dc_centre::Centre;
use dc_talk::Say;
use journal_asks::{KeptAsk, by_of};
use journal_disk::{Disk, read_all, settle};
use journal_file::{Item, OpenFault};
use std::alloc::Global;

/// Whether an ask with this reply is put in a journal.
pub fn is_kept(say: &Say) -> bool
    ensures { result ≡ is_kept say.now }
{
    matches!(
        say,
        Say::Stamped { .. }
            | Say::Applied { .. }
            | Say::Learned { .. }
            | Say::Base { .. }
            | Say::Stopped
            | Say::Started
    )
}

// Has the centre take the ask with which these bytes begin, and tells how many bytes it has. None where there is none, no gate
// stands behind it, it names another centre, or its reply is not kept.
fn take_first(
    alloc: Global,
    me: u8,
    centre: &mut Centre,
    bytes: &[u8],
) -> Result<Option<usize>, OpenFault>
    requires { centre.old.settings.me ≡ me }
    ensures settings { centre.new.settings ≡ centre.old.settings }
    ensures some { IfOk result (λ taken. IfSome taken (TakesFirst centre.old.settings centre.old centre.new bytes.now)) }
    ensures none { IfOk result (λ taken. IsNone taken → (trail : List Entry) → StandsFor centre.old trail → HasTaken centre.old.settings trail bytes.now → ⊥) }
    ensures memory { IfErr result (λ e. e ≡ OpenFault.NoMemory) }
{
    let Some((item, count)) = KeptAsk::read(alloc, bytes)? else {
        return Ok(None);
    };
    if count >= bytes.len() || item.by != by_of(me, &item.ask) {
        return Ok(None);
    }
    let Ok((say, _)) = centre.step(alloc, &item.ask) else {
        return Err(OpenFault::NoMemory);
    };
    if is_kept(&say) {
        Ok(Some(count))
    } else {
        Ok(None)
    }
}

/// The centre after all asks of a file, and the place of its closed gate.
pub fn replay(
    alloc: Global,
    me: u8,
    centre: Centre,
    bytes: &[u8],
) -> Result<(Centre, usize), OpenFault>
    requires me { centre.settings.me ≡ me }
    requires fresh { StandsFor centre [] }
    ensures settings { IfOk result (λ r. r.0.settings ≡ centre.settings) }
    ensures all { IfOk result (λ r. TakesAll centre.settings r.0 bytes.now r.1) }
    ensures within { IfOk result (λ r. r.1 < length bytes.now) }
    ensures bad { IfErr result (λ e. (trail : List Entry) → History centre.settings trail → IsFileOf centre.settings trail bytes.now → IsBad e → ⊥) }
    ensures place { IfErr result (λ e. (place : ℕ) → e ≡ OpenFault.Bad place → IsBadGate centre.settings place bytes.now) }
    ensures no_disk { IfErr result (λ e. e ≡ OpenFault.Disk → ⊥) }
{
    let mut centre = centre;
    let mut at = 0;
    while at < bytes.len() {
        if bytes[at] == 0 {
            return Ok((centre, at));
        }
        match take_first(alloc, me, &mut centre, &bytes[at + 1..])? {
            Some(count) => at += 1 + count,
            None => return Err(OpenFault::Bad(at as u64)),
        }
    }
    Err(OpenFault::Bad(at as u64))
}

/// Settles a file and reads it: the centre after all its asks, and the place of its closed gate.
pub fn recover<D: Disk>(
    alloc: Global,
    me: u8,
    n: u8,
    k: u8,
    limit: u64,
    disk: &mut D,
) -> Result<(Centre, u64), OpenFault>
    requires centre { (1 ≤ me) × (me ≤ n) }
    requires width { n ≤ MOST_CENTRES }
    requires known { (1 ≤ k) × (k ≤ n) }
    requires most { (1 ≤ limit) × (limit ≤ MOST_RECORDS) }
    ensures settings { IfOk result (λ r. r.0.settings ≡ numbers me n k limit) }
    ensures few { IfOk result (λ r. r.1 + 1 < 2 ^ 64) }
    ensures read { IfOk result (λ r. (h : List Moment) → D.is_honest disk.new → D.stands disk.old h → is_sound h ≡ true → TakesAll (numbers me n k limit) r.0 (seen h) r.1) }
    ensures settled { IfOk result (λ r. (h : List Moment) → D.stands disk.old h → is_sound h ≡ true → Ran (D.stands disk.new) h (λ c. (MayLeave h c) ⊎ (c ≡ seen h)) (λ later. (IsSettled later) × (seen later ≡ seen h))) }
    ensures err { IfErr result (λ e. (h : List Moment) (trail : List Entry) → D.is_honest disk.new → D.stands disk.old h → is_sound h ≡ true → History (numbers me n k limit) trail → IsFileOf (numbers me n k limit) trail (seen h)
        → Ran (D.stands disk.new) h (IsFound (numbers me n k limit) trail h) (λ _. IsBad e → ⊥)) }
    ensures place { IfErr result (λ e. (h : List Moment) (place : ℕ) → e ≡ OpenFault.Bad place → D.is_honest disk.new → D.stands disk.old h → is_sound h ≡ true → IsBadGate (numbers me n k limit) place (seen h)) }
    ensures failed { IfErr result (λ e. e ≡ OpenFault.Disk → HasRisen (D.faults disk.old) (D.faults disk.new)) }
    ensures faults { D.faults disk.old ≤ D.faults disk.new }
    ensures honest { D.is_honest disk.new → D.is_honest disk.old }
{
    settle(disk)?;
    let bytes = read_all(alloc, disk)?;
    let Ok(centre) = Centre::new(alloc, me, n, k, limit) else {
        return Err(OpenFault::NoMemory);
    };
    let (centre, end) = replay(alloc, me, centre, &bytes)?;
    Ok((centre, end as u64))
}
