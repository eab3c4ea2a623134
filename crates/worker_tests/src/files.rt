// Worlds as files tell them.
use file_parts::Span;
use script_reader::read_file;
use std::alloc::Global;
use unix_calls::World;

/// The world that a text means, if it is one that can be run.
pub fn world_of(alloc: Global, text: &[u8]) -> Option<World> {
    if text.len() > 1000 {
        return None;
    }
    let part = Span {
        from: 0,
        to: text.len(),
        first_line: 1,
    };
    match read_file(alloc, text, part) {
        Ok(world) => Some(world),
        Err(_) => None,
    }
}

/// A process of node 0 forks a child at node 1, which exits with 7, and waits for it without sleeping.
pub const FORK_ELSEWHERE: &[u8] =
    b"cluster 2\nscript kid\nexit 7\nend\nscript top\nfork c kid at 1\npoll any\nend\nstart 0 top p\n";

/// A process at each of two nodes asks for its pid.
pub const ONE_EACH: &[u8] = b"cluster 2\nscript a\ngetpid\nend\nstart 0 a p\nstart 1 a q\n";
