// The record of a process.
ghost use Rattle.std.specs.Prelude.{◌≡◌, ◌==◌, ◌↔◌, false, length, Err, IfOk, OnOk, OnErr};
ghost use Rattle.std.specs.List.{list_any};
ghost use Rattle.vproc_record.specs.declared.children.Refused.TheVariants.{Full};
ghost use Rattle.vproc_record.specs.Vprocs.{with_child, without_child, with_signal};

use crate::children::{Children, Refused};
use unix_names::{Life, NoMemory, NodeId, Pid, Seq, Signal, WaitStatus};

/// The record of a process.
#[derive(Debug, Drop)]
pub struct Vproc {
    pub pid: Pid,
    pub parent: Pid,
    pub group: Pid,
    pub session: Pid,
    /// The user id.
    pub uid: u32,
    pub life: Life,
    /// A stop or a continuing that the parent has not been told of.
    pub change: Option<WaitStatus>,
    /// Whether the process has done an exec.
    pub execed: bool,
    /// Whether the process ignores SIGCHLD by action, so that its children vanish when they end.
    pub ignchld: bool,
    /// The node at which the process's image is.
    pub loc: NodeId,
    /// The children in order of creation.
    pub children: Children,
    /// The signals that were sent to the process before those of its group's log.
    pub backlog: Seq<Signal>,
}

impl Vproc {
    /// Puts a child last.
    ///
    /// # Errors
    /// Full exactly where 64 are listed; else NoMemory. Nothing is changed then.
    pub fn add_child(&mut self, child: Pid) -> Result<(), Refused>
        ensures full { (result ≡ Err Full) ↔ (length self.old.children ≡ 64) }
        ensures ok { OnOk result (self.new ≡ with_child self.old child) }
        ensures err { OnErr result (self.new ≡ self.old) }
    {
        self.children.add(child)
    }

    /// Takes a child out; the others keep their order. Where it is not listed nothing changes. It takes no memory.
    pub fn drop_child(&mut self, child: Pid)
        ensures dropped { self.new ≡ without_child self.old child }
        ensures absent { list_any (λ pid. pid.0 == child.0) self.old.children ≡ false → self.new ≡ self.old }
    {
        self.children.remove(child);
    }

    /// Puts a signal at the end of the backlog.
    pub fn push_backlog(&mut self, signal: Signal) -> Result<(), NoMemory>
        ensures ok { OnOk result (self.new ≡ with_signal self.old signal) }
        ensures err { OnErr result (self.new ≡ self.old) }
    {
        self.backlog.push(signal)?;
        Ok(())
    }

    /// An equal record.
    pub fn copy(&self) -> Result<Vproc, NoMemory>
        ensures { IfOk result (λ v. v ≡ self.now) }
    {
        let children = self.children.copy()?;
        let backlog = self.backlog.clone()?;
        Ok(Vproc {
            pid: self.pid,
            parent: self.parent,
            group: self.group,
            session: self.session,
            uid: self.uid,
            life: self.life,
            change: self.change,
            execed: self.execed,
            ignchld: self.ignchld,
            loc: self.loc,
            children,
            backlog,
        })
    }
}
