// What a user is told on standard error, where standard output does not say what to do.
use command_ends::Status;
use std::io;

const USAGE: &str = "\
usage: vproc replay < FILE         runs the processes of FILE by its schedule, and writes their history
       vproc replay 2 < FILE       the same, each line behind the number of its turn and the user of its process
       vproc run W < FILE          the same by 1 to 8 threads for each node, and the turns that they did behind the history
       vproc audit < FILE          judges the history part of FILE: legal, or the first entry that breaks a rule
       vproc table K < FILE        writes the table of processes after K entries of that history
       vproc why K < FILE          writes why its entry K is answered so: the number of its refusal, otherwise, or event
       vproc make SEED NODES SIZE  writes a file of 1 to 64 nodes and 1 to 200 processes
       vproc load SEED NODES SIZE  runs that file, and counts its entries and processes
       vproc compile < FILE        writes the file of scripts that the job file FILE becomes
       vproc jobs < FILE           runs the job file FILE, and writes how the stages ended that were waited for
As an example: vproc replay < examples/first.vp
";

/// Says on standard error why a command ended, and what to do. Nothing is said where all went well, or where standard output has the line that says it.
pub fn tell(rt: &HostRuntime, status: Status, words: &[String]) -> io::Result<()> {
    match status {
        Status::Done | Status::BadFile | Status::Illegal => Ok(()),
        Status::BadWords => tell_usage(rt, words),
        Status::ReadFault => {
            eprintln!(rt; "vproc: standard input could not be read; nothing was written")
        }
        Status::WriteFault => {
            eprintln!(rt;
                "vproc: standard output took no more; what was written is only a beginning"
            )
        }
        Status::NoMemory => eprintln!(rt; "vproc: memory ran out; nothing was written"),
        Status::TooLong => {
            eprintln!(rt; "vproc: the input is longer than 1,048,576 bytes; nothing was written")
        }
    }
}

// The usage; or where a file is named behind a command that reads, how it is given.
fn tell_usage(rt: &HostRuntime, words: &[String]) -> io::Result<()> {
    match words {
        [command, file]
            if command.as_str() == "replay"
                || command.as_str() == "audit"
                || command.as_str() == "compile"
                || command.as_str() == "jobs" => {
            eprintln!(rt; "vproc: input comes on standard input: vproc {command} < {file}")
        }
        [command, number, file]
            if command.as_str() == "run"
                || command.as_str() == "table"
                || command.as_str() == "why" => {
            eprintln!(rt; "vproc: input comes on standard input: vproc {command} {number} < {file}")
        }
        _ => eprint!(rt; "{USAGE}"),
    }
}
