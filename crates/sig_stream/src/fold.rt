// The length of a stream, and its fold.
ghost use Rattle.std.specs.Prelude.{◌≡◌, ◌≤◌, ◌<◌, ◌^◌, ◌++◌, [], ◌∷◌, List, length, drop, count_by};
ghost use Rattle.signal_state.specs.Sig.{generated_all};
ghost use Rattle.group_record.specs.declared.LogEntry.{LogEntry as Entry};
ghost use Rattle.group_record.specs.Log.{concerns};
ghost use Rattle.group_record.specs.Groups.{settled};
ghost use Rattle.sig_stream.specs.Streams.{stream, tail, signals_for};

use group_record::{Group, LogEntry};
use signal_state::{Own, Sig};
use unix_names::{Pid, Signal};
use vproc_record::Vproc;

/// How many signals the stream of a process has. It takes no memory.
pub fn stream_len(v: &Vproc, g: &Group) -> u64
    ensures { result ≡ length (stream v.now g.now) }
{
    let kept = v.backlog.as_slice().len();
    let more = count_for(g.part_of(v.pid), v.pid, v.uid);
    kept as u64 + more as u64
}

/// How many signals of its stream a process has still to take. It takes no memory.
pub fn tail_len(v: &Vproc, g: &Group, taken: u64) -> u64
    requires { taken ≤ length (stream v.now g.now) }
    ensures { result ≡ length (tail taken v.now g.now) }
{
    stream_len(v, g) - taken
}

/// Generates the signals of the stream that were not taken, in order, and counts the whole stream as taken. It takes no memory.
pub fn fold_tail(own: &mut Own, v: &Vproc, g: &Group)
    requires { own.old.taken ≤ length (stream v.now g.now) }
    ensures sig { own.new.sig ≡ generated_all own.old.sig (tail own.old.taken v.now g.now) }
    ensures taken { own.new.taken ≡ length (stream v.now g.now) }
{
    let backlog = v.backlog.as_slice();
    let part = g.part_of(v.pid);
    let sig = generate_parts(own, backlog, part, v.pid, v.uid);
    let taken = backlog.len() as u64 + count_for(part, v.pid, v.uid) as u64;
    *own = Own { sig, taken };
}

/// Generates the signals of the stream that were not taken, in order; nothing counts as taken then. It takes no memory.
pub fn fold_all(own: &mut Own, v: &Vproc, g: &Group)
    requires { own.old.taken ≤ length (stream v.now g.now) }
    ensures { own.new ≡ record { sig = generated_all own.old.sig (tail own.old.taken v.now g.now); taken = 0 } }
{
    let part = g.part_of(v.pid);
    let sig = generate_parts(own, v.backlog.as_slice(), part, v.pid, v.uid);
    *own = Own { sig, taken: 0 };
}

/// The same, and the stream is emptied: the backlog, and the process's part of the log. It takes no memory.
pub fn fold_and_settle(own: &mut Own, v: &mut Vproc, g: &mut Group)
    requires { own.old.taken ≤ length (stream v.old g.old) }
    ensures own { own.new ≡ record { sig = generated_all own.old.sig (tail own.old.taken v.old g.old); taken = 0 } }
    ensures process { v.new ≡ record v.old { backlog = [] } }
    ensures group { g.new ≡ settled g.old v.old.pid }
{
    let from = g.settle_from(v.pid);
    let part = g.entries_from(from);
    let sig = generate_parts(own, v.backlog.as_slice(), part, v.pid, v.uid);
    *own = Own { sig, taken: 0 };
    v.backlog.clear();
}

// What the first signals leave, and the entries after them.
fn generate_parts(own: &Own, backlog: &[Signal], part: &[LogEntry], p: Pid, uid: u32) -> Sig
    ensures { result ≡ generated_all own.now.sig (drop own.now.taken (backlog.now ++ signals_for p uid part.now)) }
{
    let passed = own.taken.min(backlog.len() as u64);
    let after_backlog = generate_each(own.sig, after_first(backlog, passed as usize));
    generate_for(after_backlog, part, p, uid, own.taken - passed)
}

fn after_first(signals: &[Signal], passed: usize) -> &[Signal]
    requires { passed ≤ length signals.now }
    ensures { result.now ≡ drop passed signals.now }
{
    &signals[passed..]
}

fn count_for(entries: &[LogEntry], p: Pid, uid: u32) -> usize
    ensures count { result ≡ count_by (concerns p uid) entries.now }
    ensures small { result < 2 ^ 63 }
{
    entries.iter().filter(|e| e.concerns(p, uid)).count()
}

fn generate_each(start: Sig, signals: &[Signal]) -> Sig
    ensures { result ≡ generated_all start signals.now }
{
    let mut sig = start;
    for s in signals {
        sig.generate(*s);
    }
    sig
}

fn generate_for(start: Sig, entries: &[LogEntry], p: Pid, uid: u32, passed: u64) -> Sig
    ensures { result ≡ generated_all start (drop passed (signals_for p uid entries.now)) }
{
    let mut sig = start;
    let mut left = passed;
    // Four at a time, since a log may have hundreds that concern others.
    let mut rest = entries;
    while let [a, b, c, d, others @ ..] = rest {
        take_one(&mut sig, &mut left, a, p, uid);
        take_one(&mut sig, &mut left, b, p, uid);
        take_one(&mut sig, &mut left, c, p, uid);
        take_one(&mut sig, &mut left, d, p, uid);
        rest = others;
    }
    for e in rest {
        take_one(&mut sig, &mut left, e, p, uid);
    }
    sig
}

// The next entry of a part: one more was passed, or its signal is generated, if it concerns the process.
fn take_one(sig: &mut Sig, left: &mut u64, e: &LogEntry, p: Pid, uid: u32)
    ensures { (more : List Entry) → generated_all sig.new (drop left.new (signals_for p uid more)) ≡ generated_all sig.old (drop left.old (signals_for p uid (e.now ∷ more))) }
{
    if e.concerns(p, uid) {
        if *left > 0 {
            *left -= 1;
        } else {
            sig.generate(e.signal);
        }
    }
}
