// Scripts whose steps are taken as events.

// Two clients that move between two centres, with a small cache; an update is stable at once.
const MOVES: &[u8] = b"\
centres 2 k 1
clients 2
cache 1
c1 connect 1
c2 connect 2
c1 begin
c2 begin
c1 inc c.a 5
c2 refresh
c1 read c.a
c2 add s.a x
c1 commit
c2 commit
c1 push
c2 twice
c2 push
ship 1 2
c1 refresh
c2 connect 1
tell 1 2
c1 connect 2
c2 refresh
c1 begin
c2 read c.a
ship 2 1
c1 add s.a y
c2 begin
c1 read s.a
c2 del s.a x
c1 commit
c2 read s.a
c1 flush
c2 commit
tell 2 1
c1 refresh
c2 push
c1 read s.a
ship 1 2 1
c2 connect 2
c1 read c.a
c2 refresh
c2 read s.a
";

// Three clients among three centres, of which two have to know an update; asks and answers are lost.
const LOSSES: &[u8] = b"\
centres 3 k 2
clients 3
c1 connect 1
c2 connect 2
c3 connect 3
c1 begin
c2 begin
c3 begin
c1 set r.a x
c2 set r.a y
c3 put m.a k x
c1 commit
c2 commit
c3 commit
c1 lose reply
c2 twice
c3 lose ask
c1 push
c2 push
c3 push
ship 1 2
tell 1 2
c1 connect 2
c2 refresh
c3 flush
c1 flush
c2 read r.a
ship 2 1
c3 refresh
c1 begin
c2 lose reply
c3 begin
tell 2 1
c1 inc c.a 1
c2 begin
c3 put m.a k y
c1 commit
c2 drop m.a k
ship 1 3
c3 read m.a
c1 push
c2 commit
c3 commit
settle
c1 again 3 1
c2 flush
c3 push
c1 refresh
c2 read m.a
c3 read r.a
";

// Four clients of two centres that are stopped and started, where each centre stamps three transactions at most.
const STOPS: &[u8] = b"\
centres 2 k 2
clients 4
limit 3
c1 connect 1
c2 connect 1
c3 connect 2
c4 connect 2
c1 begin
c2 begin
c3 begin
c4 begin
c1 inc c.a 1
c2 inc c.a 2
c3 inc c.a 3
c4 inc c.a 4
c1 commit
c2 commit
c3 commit
c4 commit
c1 push
c2 push
c3 push
c4 push
settle
prune 1
prune 2
c1 refresh
c2 refresh
c3 connect 1
c4 connect 1
down 1
c1 read c.a
c2 begin
c3 refresh
c4 refresh
up 1
c1 begin
c2 inc c.b 1
c3 read c.a
c4 read c.a
c1 inc c.a 6
c2 commit
c3 begin
c4 begin
c1 commit
c2 push
c3 abort
c4 commit
settle
prune 1
c1 push
c2 refresh
c3 flush
c4 push
";

// Four clients among three centres, all of which have to know an update, with late copies.
const COPIES: &[u8] = b"\
centres 3 k 3
clients 4
cache 2
c1 connect 1
c2 connect 2
c3 connect 3
c4 connect 1
c1 begin
c2 begin
c3 begin
c4 read s.a
c1 add s.a x
c2 add s.a x
c3 inc c.a 7
c4 begin
c1 commit
c2 commit
c3 commit
c4 inc c.a 2
c1 lose reply
c2 push
c3 push
c4 commit
c1 push
settle
prune 2
c4 push
c1 connect 2
c2 again 1 1
c3 refresh
c4 connect 3
c1 push
c2 refresh
c3 read c.a
c4 again 2 1
ship 2 3
prune 2
c1 begin
c2 begin
c3 begin
c4 refresh
c1 del s.a x
c2 read s.a
c3 inc c.a 1
tell 2 3
c1 commit
c2 del s.a x
c3 commit
c4 read c.a
settle
c1 flush
c2 commit
c3 twice
c2 push
c3 push
";

// Three clients among three centres with phases, over links that drop, double, hold and spoil records; a centre is stopped
// for a while in the second one, and there are steps behind the last round.
const PHASES: &[u8] = b"\
centres 3 k 2
clients 3
rounds 9
link 1 2 hold 2
link 2 3 drop 3
link 3 1 cut 2
phase
c1 connect 1
c2 connect 2
c3 connect 3
c1 begin
c1 inc c.a 1
c1 commit
c1 push
c2 begin
c2 add s.a x
c2 commit
c2 push
c3 begin
c3 set r.a y
c3 commit
c1 begin
c1 inc c.a 2
c1 commit
c1 push
c3 flush
end
link 1 3 twice 1
link 1 2 hold 1
link 3 2 bend 1
c1 refresh
phase
prune 1
down 2
c1 begin
c1 put m.a k x
c1 commit
c1 push
c2 refresh
c2 begin
up 2
ship 1 3
c3 refresh
c3 begin
c3 del s.a x
c3 commit
c3 lose reply
c3 push
c3 push
c2 inc c.a 4
c2 commit
c2 flush
c1 refresh
c1 read c.a
c1 read s.a
c1 read r.a
c1 begin
c1 inc c.a 8
c1 commit
c1 push
end
link 2 3 clean
phase
end
settle
c1 refresh
c2 refresh
c3 refresh
c3 read m.a
";

// Four clients of two centres with short phases, in which a link is never whole, and more steps than rounds.
const TURNS: &[u8] = b"\
centres 2 k 1
clients 4
rounds 2
c1 connect 1
c2 connect 2
link 2 1 drop 2
phase
c4 connect 2
c3 connect 1
c2 begin
c1 begin
c1 inc c.a 1
c2 inc c.a 2
c1 commit
c2 commit
c1 push
c2 push
tell 1 2
c3 begin
c3 add s.a x
c3 commit
c4 twice
c4 refresh
prune 2
c3 push
end
link 1 2 twice 2
phase
c4 refresh
c4 begin
c4 del s.a x
c4 commit
c4 push
c1 connect 2
c1 connect 1
c1 again 1 2
end
c1 begin
c1 inc c.a 4
c1 commit
c1 flush
link 1 2 cut 1
phase
down 1
c2 refresh
up 1
c3 refresh
c3 read c.a
end
";

// Three clients of two centres with taps, of which one is fed while its centre is stopped, and a phase.
const LOOKS: &[u8] = b"\
centres 2 k 1
clients 3
rounds 2
tap 1 c.a
tap 2 s.a
tap 1 m.a
tap 2 c.a
c1 connect 1
c2 connect 2
c3 tap 1 c.a
c1 begin
c1 inc c.a 5
c1 put m.a k x
c1 commit
c1 push
feed 1
c2 tap 2 c.a
feed 1
c3 tap 1 m.a
c2 begin
c2 add s.a y
c2 commit
c2 push
down 2
feed 2
up 2
c1 tap 1 c.a
phase
c1 begin
c1 inc c.a 2
c1 commit
c1 push
c2 refresh
c3 connect 2
end
feed 2
c3 tap 2 s.a
settle
feed 2
c2 tap 2 s.a
prune 1
feed 1
c1 tap 1 c.a
feed 2
c3 tap 2 c.a
";

/// The scripts.
pub const SCRIPTS: [&[u8]; 7] = [MOVES, LOSSES, STOPS, COPIES, PHASES, TURNS, LOOKS];
