//! What the couriers of a node keep from turn to turn, for every vector of decisions, as the contracts of functions without a body.
#![tactic(auto)]

ghost use Rattle.node_laws.specs.Laws.{GoersAreSound, MoversAreSound, ArrivalsAreSound, StepsKeep, ReturnsKeep, TurnsKeep, MessagesKeep, NodesBeginSound};

/// Before the first turn each courier of a node is sound: each wanted name that is below a held one is held, and no name is wanted twice.
pub fn nodes_begin_sound()
    ensures { NodesBeginSound }
{}

/// Where each courier of a node is sound, so is who sets out by a turn: an image with its next job, one that is moved, a courier of the queue, and one that rides in.
pub fn who_sets_out_is_sound()
    ensures goers { GoersAreSound }
    ensures movers { MoversAreSound }
    ensures arrivals { ArrivalsAreSound }
{}

/// A lawful answer leaves each courier sound, by a restart, a record that is taken, a place in line, or the end; so does a record that comes back and is handed to the first in line.
pub fn steps_keep_couriers()
    ensures steps { StepsKeep }
    ensures returns { ReturnsKeep }
{}

/// A turn whose questions are answered lawfully leaves each courier of the node sound, and sends none that is not.
pub fn turns_keep_couriers()
    ensures turns { TurnsKeep }
    ensures messages { MessagesKeep }
{}
