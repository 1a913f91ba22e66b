// A phase in which callers wait for one another, which ends in time only where they go on at once; and taps that a phase
// leaves as they are.
use crate::top_call_tests::ended_of;
use io_edge::{Call, FreeGate, Gate, SteadySink, SteadySource};
use run_progress::{Extent, Progress};
use std::alloc::{AllocError, Global};
use std::sync::Wait;
use std::sync::atomic::{AtomicU64, Ordering};
use std::test::Fail;
use std::thread::{self, Threads};

// In front of the phase centre 2 has a record that centre 1 has not, so in the first round of the phase the sender of
// centre 2 sends it, and the receiver of centre 1 delivers it.
const SCRIPT: &[u8] =
    b"centres 2 k 1\nclients 4\nthreads 4\nc1 connect 2\nc1 begin\nc1 inc c.a 1\nc1 commit\nc1 push\nphase\nc1 refresh\nc2 connect 2\nc3 connect 1\nc4 connect 2\ntell 1 2\nend\n";

const TEXT: &[u8] =
    b"c1 at 2\nc1 commit 1\nc1 push 1 stamp 2:1\nc1 sees 0,1 own 1\nc2 at 2\nc3 at 1\nc4 at 2\n";

// How many callers meet.
const CALLERS: u64 = 11;

// How often one of them looks whether all have come.
const TURNS: u32 = 5_000_000;

// A gate that holds callers at their first calls until all of those have come that meet, and counts those that waited
// in vain. These are the operator, four clients, the sender and the receiver of centre 1, and of both centres the
// reporters and the pruners. The sender of centre 2 goes on, since the receiver of centre 1 waits for it.
#[derive(Drop)]
struct Meeting {
    come: AtomicU64,
    late: AtomicU64,
}

// Whether a caller is one of those that meet.
fn meets(actor: u32) -> bool {
    matches!(actor, 1..=9 | 12 | 13)
}

impl Meeting {
    // Holds one of those that meet until all have come.
    fn wait(&self) {
        self.come.fetch_add(1, Ordering::SeqCst);
        for _turn in 0..TURNS {
            if self.come.load(Ordering::SeqCst) >= CALLERS {
                return;
            }
            thread::yield_now();
        }
        self.late.fetch_add(1, Ordering::SeqCst);
    }
}

impl Gate for Meeting {
    type Ticket = Call;

    type Receipt = Call;

    fn before(&self, actor: u32, step: u64) -> Call {
        if step == 1 && meets(actor) {
            self.wait();
        }
        Call { actor, step }
    }

    fn after(&self, ticket: Call) -> Call {
        ticket
    }
}

impl Progress for Meeting {
    fn played(&self, _sections: u64, _of: Extent) {}
}

#[test]
fn eleven_callers_of_a_phase_go_on_at_once(rt: HostRuntime) -> Result<(), Fail> {
    let mut source = SteadySource::new(Vec::from_slice(rt.alloc(), SCRIPT)?);
    let mut sink = SteadySink::new(rt.alloc());
    let gate = Meeting {
        come: AtomicU64::new(0),
        late: AtomicU64::new(0),
    };
    let ended = ended_of(&rt, rt.alloc(), "run", &mut source, &mut sink, &gate)?;
    assert!(rt; ended.status == 0);
    assert!(rt; sink.bytes() == TEXT);
    assert!(rt; gate.come.load(Ordering::SeqCst) == CALLERS);
    assert!(rt; gate.late.load(Ordering::SeqCst) == 0);
    Ok(())
}

// A counter and a register on the tap of centre 1. It is fed before the phase and behind it, and in the phase the records
// of centre 2 come. The second feed finds the base of the first one's mark.
const TAPPED: &[u8] = b"\
centres 2 k 1
clients 2
rounds 2
tap 1 c.a
tap 1 r.a
c1 connect 1
c2 connect 2
c1 begin
c1 inc c.a 5
c1 commit
c1 push
feed 1
feed 1
c2 tap 1 c.a
c2 begin
c2 set r.a x
c2 inc c.a 2
c2 commit
c2 push
phase
end
c1 tap 1 r.a
c2 tap 1 c.a
feed 1
c2 tap 1 c.a
feed 1
c1 tap 1 c.a
c1 tap 1 r.a
down 1
feed 1
c2 tap 1 r.a
";

const TAPPED_TEXT: &[u8] = b"\
c1 at 1
c2 at 2
c1 commit 1
c1 push 1 stamp 1:1
1 fed 0,0
1 fed 1,0
c2 tap 1 c.a at 1,0 5
c2 commit 1
c2 push 1 stamp 2:1
c1 tap 1 r.a at 1,0 -
c2 tap 1 c.a at 1,0 5
1 fed 1,0
c2 tap 1 c.a at 1,0 5
1 fed 1,1
c1 tap 1 c.a at 1,1 7
c1 tap 1 r.a at 1,1 x
1 feed down
c2 tap 1 r.a at 1,1 x
";

// Whether the script with taps has its text by a word.
fn shows_as_fed<R: Threads + Wait + Sync>(
    rt: &R,
    alloc: Global,
    word: &str,
) -> Result<bool, AllocError> {
    let mut source = SteadySource::new(Vec::from_slice(alloc, TAPPED)?);
    let mut sink = SteadySink::new(alloc);
    let ended = ended_of(rt, alloc, word, &mut source, &mut sink, &FreeGate)?;
    Ok(ended.status == 0 && sink.bytes() == TAPPED_TEXT)
}

#[test]
fn a_phase_leaves_the_taps(rt: HostRuntime) -> Result<(), Fail> {
    for word in ["serial", "run"] {
        assert!(rt; shows_as_fed(&rt, rt.alloc(), word)?, "{word}");
    }
    Ok(())
}
