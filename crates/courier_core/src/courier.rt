// Couriers, and what travels between nodes.
ghost use Rattle.std.specs.Prelude.{◌≡◌, ◌<◌, true, length, is_none, Some, IsSome, OnOk, OnErr};

use crate::wants::{add_needed_and_held, least_lacking};
use proc_image::Image;
use record_bag::{Bag, Held};
use unix_calls::Job;
use unix_names::{Name, NoMemory, Pid, Seq, is_before};

/// A process's image on its way, with its job, the names that are to be gathered, and the records that were gathered.
#[derive(Debug, Drop)]
pub struct Courier {
    pub image: Image,
    pub job: Job,
    pub wants: Seq<Name>,
    pub bag: Bag,
}

/// What travels between nodes: a courier, a record on its way home, an image on its way to its place, and news that a process may go on, first to its record's home and from there to its place.
#[derive(Debug, Drop)]
pub enum Message {
    Ride(Courier),
    Put(Name, Held),
    Back(Image),
    Nudge(Pid),
    Poke(Pid),
}

impl Courier {
    ghost use Rattle.courier_core.specs.Wants.{lacking, IsLeast};
    ghost use Rattle.courier_core.specs.Couriers.{asked, next_want, must_restart, remembered, HoldsWhatIsBelow};

    /// Whether the bag has each needed and wanted name. It takes no memory.
    pub fn has_all(&self, need: &[Name]) -> bool
        ensures { result ≡ is_none (next_want self.now need.now) }
    {
        self.least_lacking(need).is_none()
    }

    /// The least of the needed and wanted names that the bag lacks. It takes no memory.
    pub fn next_want(&self, need: &[Name]) -> Name
        requires { IsSome (next_want self.now need.now) }
        ensures next { next_want self.now need.now ≡ Some result }
        ensures least { IsLeast result (lacking self.now.bag (asked self.now need.now)) }
    {
        match self.least_lacking(need) {
            Some(name) => name,
            None => unreachable!(),
        }
    }

    /// Whether a name is below some held name, so that the records have to go back before it may be waited for. It takes no memory.
    pub fn must_restart(&self, name: Name) -> bool
        ensures { result ≡ must_restart self.now name }
    {
        match self.bag.greatest() {
            Some(greatest) => is_before(name, greatest),
            None => false,
        }
    }

    /// Wants from now on also the needed names, in order, and then the held ones, in order, each once.
    pub fn remember(&mut self, need: &[Name]) -> Result<(), NoMemory>
        ensures ok { OnOk result (self.new ≡ remembered self.old need.now) }
        ensures err { OnErr result (self.new ≡ self.old) }

        // A restart adds a name, where the wanted names below a held one are held.
        ensures grows { OnOk result (HoldsWhatIsBelow self.old → (n : Name) → next_want self.old need.now ≡ Some n → must_restart self.old n ≡ true → length self.old.wants < length self.new.wants) }
    {
        let known = self.wants.len();
        match add_needed_and_held(&mut self.wants, need, &self.bag) {
            Ok(()) => Ok(()),
            Err(NoMemory) => {
                self.wants.truncate(known);
                Err(NoMemory)
            }
        }
    }

    /// The least of the needed and wanted names that the bag lacks. None exactly where it lacks none. It takes no memory.
    pub fn least_lacking(&self, need: &[Name]) -> Option<Name>
        ensures { result ≡ next_want self.now need.now }
    {
        let wanted = least_lacking(&self.bag, None, self.wants.as_slice());
        least_lacking(&self.bag, wanted, need)
    }
}
