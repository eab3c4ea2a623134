// Names by which facts behind different locks speak of one world and one log.

use std::marker::Brand;

/// Which world it is.
pub trait WorldName {
    ghost use Rattle.unix_calls.specs.declared.World.{World};

    ghost world: { World };
}

impl WorldName for Brand {
    ghost use Rattle.std.specs.Prelude.{[]};

    ghost world = { record { nodes = 0; vars = 0; scripts = []; starts = [] } };
}

/// Which log it is.
pub trait LogName {
    ghost use Rattle.atomic_table.specs.Seated.{TableId};

    ghost log: { TableId };
}

impl LogName for Brand {
    ghost use Rattle.std.specs.Prelude.{[]};

    ghost log = { record { words = 0; slots = 0; views_name = 0; atom = 0; block = 0; offset = 0; slot_names = [] } };
}
