// The children of a process.
ghost use Rattle.std.specs.Prelude.{◌≡◌, ◌≤◌, ◌↔◌, [], ◌∷◌, ◌++◌, length, take, Err, IfOk, OnOk, OnErr};
ghost use Rattle.unix_names.specs.declared.limits.TheConstants.{MOST_CHILDREN};
ghost use Rattle.vproc_record.specs.declared.children.Refused.TheVariants.{Full};
ghost use Rattle.vproc_record.specs.Lists.{without};

use std::alloc::Global;
use std::marker::Model;
use unix_names::{MOST_CHILDREN, NoMemory, Pid, Seq};

/// Why a process gets no child more.
#[derive(Clone, Copy, Debug, PartialEq, Eq)]
pub enum Refused {
    /// It has as many as it may have.
    Full,
    NoMemory,
}

/// The children of a process in order of creation, at most `MOST_CHILDREN`. Contracts see the list.
#[derive(Debug, Drop)]
pub struct Children {
    pids: Seq<Pid>,
}

impl Model for Children {
    ghost use Rattle.std.specs.Prelude.{List, ◌≤◌, length};
    ghost use Rattle.unix_names.specs.declared.limits.TheConstants.{MOST_CHILDREN};
    ghost use Rattle.unix_names.specs.declared.Pid.{Pid};

    ghost Value = { List Pid };

    ghost view = { λ c. c.pids };

    ghost invariant = { λ c. length c.pids ≤ MOST_CHILDREN };
}

impl Children {
    /// No children. It takes no memory.
    pub fn new(alloc: Global) -> Children
        ensures { result ≡ [] }
    {
        Children {
            pids: Seq::new(alloc),
        }
    }

    /// How many children there are.
    pub fn len(&self) -> usize
        ensures count { result ≡ length self.now }
        ensures fits { length self.now ≤ MOST_CHILDREN }
    {
        self.pids.len()
    }

    /// The children in order of creation.
    pub fn as_slice(&self) -> &[Pid]
        ensures items { result.now ≡ self.now }
        ensures fits { length self.now ≤ MOST_CHILDREN }
    {
        self.pids.as_slice()
    }

    /// Puts a child last.
    ///
    /// # Errors
    /// Full exactly where as many are listed as a process may have; else NoMemory. Nothing is changed then.
    pub fn add(&mut self, child: Pid) -> Result<(), Refused>
        ensures full { (result ≡ Err Full) ↔ (length self.old ≡ MOST_CHILDREN) }
        ensures ok { OnOk result (self.new ≡ self.old ++ child ∷ []) }
        ensures err { OnErr result (self.new ≡ self.old) }
    {
        if self.pids.len() >= MOST_CHILDREN {
            return Err(Refused::Full);
        }
        if self.pids.push(child).is_err() {
            return Err(Refused::NoMemory);
        }
        Ok(())
    }

    /// Takes a child out; the others keep their order. Where it is not listed nothing changes.
    pub fn remove(&mut self, child: Pid)
        ensures { self.new ≡ without child self.old }
    {
        self.pids.retain(|pid| *pid != child);
    }

    /// Only the first ones stay, as many as that. It takes no memory.
    pub fn truncate(&mut self, count: usize)
        ensures { self.new ≡ take count self.old }
    {
        self.pids.truncate(count);
    }

    /// An equal list.
    pub fn copy(&self) -> Result<Children, NoMemory>
        ensures { IfOk result (λ c. c ≡ self.now) }
    {
        let pids = self.pids.clone()?;
        Ok(Children { pids })
    }
}
