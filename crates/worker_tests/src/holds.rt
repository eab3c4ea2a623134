// Holds that tell whether nodes are served at once, and whose turn comes first.
use byte_ends::Hold;
use std::sync::atomic::{AtomicBool, Ordering};

// A hold looks so often for what it waits for.
const MOST_LOOKS: u32 = 100_000_000;

// Whether a flag was raised before so many looks were made.
fn is_seen(flag: &AtomicBool) -> bool {
    for _ in 0..MOST_LOOKS {
        if flag.load(Ordering::SeqCst) {
            return true;
        }
    }
    false
}

/// Lets nodes 0 and 1 go on only once both have been asked, so that one thread that asks for one node after the other never gets a yes.
#[derive(Drop)]
pub struct Meeting {
    first: AtomicBool,
    second: AtomicBool,
    missed: AtomicBool,
}

impl Meeting {
    pub fn new() -> Meeting {
        Meeting {
            first: AtomicBool::new(false),
            second: AtomicBool::new(false),
            missed: AtomicBool::new(false),
        }
    }

    /// Whether a node was told no.
    pub fn has_missed(&self) -> bool {
        self.missed.load(Ordering::SeqCst)
    }
}

impl Hold for Meeting {
    fn may_step(&self, node: u32, _turn: u64) -> bool {
        let (here, there) = if node == 0 {
            (&self.first, &self.second)
        } else {
            (&self.second, &self.first)
        };
        here.store(true, Ordering::SeqCst);
        if is_seen(there) {
            return true;
        }
        self.missed.store(true, Ordering::SeqCst);
        false
    }

    fn stepped(&self, _node: u32) {}
}

/// Lets every other node make its first turn only once one node has made a turn.
#[derive(Drop)]
pub struct Leader {
    node: u32,
    stepped: AtomicBool,
    missed: AtomicBool,
}

impl Leader {
    pub fn new(node: u32) -> Leader {
        Leader {
            node,
            stepped: AtomicBool::new(false),
            missed: AtomicBool::new(false),
        }
    }

    /// Whether a node was told no.
    pub fn has_missed(&self) -> bool {
        self.missed.load(Ordering::SeqCst)
    }
}

impl Hold for Leader {
    fn may_step(&self, node: u32, turn: u64) -> bool {
        if node == self.node || turn > 0 || is_seen(&self.stepped) {
            return true;
        }
        self.missed.store(true, Ordering::SeqCst);
        false
    }

    fn stepped(&self, node: u32) {
        if node == self.node {
            self.stepped.store(true, Ordering::SeqCst);
        }
    }
}
