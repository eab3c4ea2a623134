// A record that is held and present, to be changed where it lies.
ghost use Rattle.std.specs.Prelude.{◌≡◌};
ghost use Rattle.std.specs.Option.{option_copied_mut};
ghost use Rattle.std.specs.Borrow.{sem};
ghost use Rattle.ordered_table.specs.Entries.{value_at, IsRising};
ghost use Rattle.record_bag.specs.Bags.{present};
ghost use Rattle.record_bag.specs.Lends.{lends_record};

use ordered_table::Table;
use unix_names::Pid;

/// The record of an id, to be changed where it lies. None exactly where the id is not held or held as absent; the table then stays as it is. It takes no memory.
pub fn record_mut<T>(table: &mut Table<Option<T>>, pid: Pid) -> Option<&mut T>
    ensures* writes_back { sem 𝓛 (lends_record T.row table.entry pid result) }
    ensures value { option_copied_mut result ≡ present (value_at table.old pid) }
    ensures rising { IsRising table.old }
{
    match table.get_mut(pid) {
        Some(held) => held.as_mut(),
        None => None,
    }
}
