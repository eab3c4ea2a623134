// Where images stand.
ghost use Rattle.std.specs.Prelude.{◌≡◌, true, OnOk};

use crate::images::woken;
use crate::ready::Waiting;
use crate::state::State;
use proc_image::Image;
use unix_calls::Phase;
use unix_names::{NoMemory, Pid};

impl State {
    ghost use Rattle.ordered_table.specs.Entries.{with_value};
    ghost use Rattle.node_state.specs.Places.{poked, placed, rested, queued};

    fn mark(&mut self, pid: Pid) -> Result<(), NoMemory>
        ensures { OnOk result (self.new ≡ record self.old { marks = with_value self.old.marks pid true }) }
    {
        match self.marks.put(pid, true) {
            Ok(_) => Ok(()),
            Err(_) => Err(NoMemory),
        }
    }

    fn enqueue(&mut self, waiting: Waiting) -> Result<(), NoMemory>
        ensures { OnOk result (self.new ≡ queued self.old waiting) }
    {
        self.ready.push(waiting)
    }

    #[tactic(auto, using(ordered_table::proofs::AbsentLaws::absent_laws))]
    /// Tells a process at its place that it may go on. A parked image joins the end of the queue, one that stands there stays, and of one that is not here the process is marked.
    pub fn poke(&mut self, pid: Pid) -> Result<(), NoMemory>
        ensures { OnOk result (self.new ≡ poked self.old pid) }
    {
        match self.parked.remove(pid) {
            Some(image) => self.enqueue(Waiting::Image(woken(image))),
            None if self.ready.has_image(pid) => Ok(()),
            None => self.mark(pid),
        }
    }

    // An image that can run joins the end of the queue, and another is parked.
    fn rest(&mut self, image: Image) -> Result<(), NoMemory>
        ensures { OnOk result (self.new ≡ rested self.old image image.phase) }
    {
        match image.phase {
            Phase::Ready => self.enqueue(Waiting::Image(image)),
            _ => match self.parked.put(image.pid, image) {
                Ok(_) => Ok(()),
                Err(_) => Err(NoMemory),
            },
        }
    }

    #[tactic(auto, using(ordered_table::proofs::AbsentLaws::absent_laws))]
    /// An image comes to stand here. That of a process that was marked goes on.
    pub fn place(&mut self, image: Image) -> Result<(), NoMemory>
        ensures { OnOk result (self.new ≡ placed self.old image) }
    {
        match self.marks.remove(image.pid) {
            Some(_) => self.enqueue(Waiting::Image(woken(image))),
            None => self.rest(image),
        }
    }
}
