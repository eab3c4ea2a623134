// Which worlds can be run.
ghost use Rattle.std.specs.Prelude.{◌≡◌, ◌+◌, ◌≤◌, ◌<◌, ◌^◌, ◌↔◌, IsTrue, IfSome, length, take, All};
ghost use Rattle.unix_calls.specs.Valid.{IsNode, IsVariable, IsArgument, IsStatement, IsScript, IsStart, HasLimits, IsValid, EachAt};
ghost use Rattle.unix_calls.specs.Valid as spec;
ghost use Rattle.unix_calls.specs.Work.{works, total_work, is_little};

use crate::limits::{MOST_NODES, MOST_SCRIPTS, MOST_STARTS, MOST_STATEMENTS};
use crate::work::{Work, fill_works, total_work};
use crate::world::{Arg, Script, Start, Statement, World};
use unix_names::{NodeId, PIDS_PER_NODE, Pid};

impl World {
    /// Whether the world can be run: its limits hold; variables, nodes and scripts are in range; a fork or an exec names an earlier script; starts have their pids and variables of their own, and join an earlier start. It takes no memory.
    pub fn is_valid(&self) -> bool
        ensures { IsTrue result ↔ IsValid self.now }
    {
        if !self.has_limits() {
            return false;
        }
        if !self.has_scripts() {
            return false;
        }
        self.has_starts() && self.has_little_work()
    }

    fn has_limits(&self) -> bool
        ensures { IsTrue result ↔ HasLimits self.now }
    {
        self.nodes >= 1
            && self.nodes <= MOST_NODES
            && self.scripts.len() <= MOST_SCRIPTS
            && self.starts.len() <= MOST_STARTS
    }

    fn has_scripts(&self) -> bool
        ensures { IsTrue result ↔ EachAt (IsScript self.now) self.now.scripts }
    {
        for (k, script) in self.scripts.as_slice().iter().enumerate() {
            if !self.is_script(k, script) {
                return false;
            }
        }
        true
    }

    fn has_starts(&self) -> bool
        requires nodes { self.now.nodes ≤ MOST_NODES }
        requires few { length self.now.starts ≤ MOST_STARTS }
        ensures { IsTrue result ↔ EachAt (λ k. IsStart self.now (take k self.now.starts)) self.now.starts }
    {
        let starts = self.starts.as_slice();
        for (k, start) in starts.iter().enumerate() {
            if !self.is_start(&starts[..k], start) {
                return false;
            }
        }
        true
    }

    fn has_little_work(&self) -> bool
        requires { length self.now.scripts ≤ MOST_SCRIPTS }
        ensures { result ≡ is_little (total_work (works self.now.scripts) self.now.starts) }
    {
        let mut works = [Work::NONE; MOST_SCRIPTS];
        let works = &mut works[..self.scripts.len()];
        fill_works(works, self.scripts.as_slice());
        total_work(works, self.starts.as_slice()).is_little()
    }

    fn is_script(&self, k: usize, script: &Script) -> bool
        ensures { IsTrue result ↔ IsScript self.now k script.now }
    {
        script.statements.len() <= MOST_STATEMENTS
            && script
                .statements
                .as_slice()
                .iter()
                .all(|statement| self.is_statement(k, *statement))
    }

    fn is_statement(&self, k: usize, statement: Statement) -> bool
        ensures { IsTrue result ↔ IsStatement self.now k statement }
    {
        match statement {
            Statement::Getpgid(arg) | Statement::Getsid(arg) => self.is_argument(arg),
            Statement::Fork { var, script, at } => {
                var < self.vars && script < k && self.may_be_at(at)
            }
            Statement::Exec(script) => script < k,
            Statement::Wait { arg, .. } | Statement::Kill { arg, .. } => self.is_argument(arg),
            Statement::Setpgid { pid, pgid, .. } => {
                self.is_argument(pid) && self.is_argument(pgid)
            }
            Statement::Migrate(node) => self.is_node(node),
            _ => true,
        }
    }

    fn is_argument(&self, arg: Arg) -> bool
        ensures { IsTrue result ↔ IsArgument self.now arg }
    {
        match arg {
            Arg::Var(v) => v < self.vars,
            _ => true,
        }
    }

    fn is_node(&self, node: NodeId) -> bool
        ensures { IsTrue result ↔ IsNode self.now node }
    {
        node.0 < self.nodes
    }

    fn may_be_at(&self, at: Option<NodeId>) -> bool
        ensures { IsTrue result ↔ IfSome at (IsNode self.now) }
    {
        match at {
            Some(node) => self.is_node(node),
            None => true,
        }
    }

    fn is_start(&self, earlier: &[Start], start: &Start) -> bool
        requires nodes { self.now.nodes ≤ MOST_NODES }
        requires few { length earlier.now ≤ MOST_STARTS }
        ensures { IsTrue result ↔ IsStart self.now earlier.now start.now }
    {
        self.is_node(start.node)
            && start.script < self.scripts.len()
            && start.var < self.vars
            && start.pid == start_pid(start.node, earlier)
            && earlier.iter().all(|other| other.var != start.var)
            && joins_earlier(start.joined, earlier.len())
    }
}

/// The pid of a start at a node, behind earlier starts.
pub fn start_pid(node: NodeId, earlier: &[Start]) -> Pid
    requires node { node.0 < MOST_NODES }
    requires few { length earlier.now < 2 ^ 31 }
    ensures { result.0 ≡ spec.start_pid node earlier.now }
{
    let at_node = earlier.iter().filter(|start| start.node == node).count();
    Pid(PIDS_PER_NODE * node.0 + 2 + at_node as u32)
}

fn joins_earlier(joined: Option<usize>, count: usize) -> bool
    ensures { IsTrue result ↔ IfSome joined (λ j. j < count) }
{
    match joined {
        Some(start) => start < count,
        None => true,
    }
}
