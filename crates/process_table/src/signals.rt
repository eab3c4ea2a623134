// Signals that are generated for rows.
ghost use Rattle.std.specs.Prelude.{◌≡◌, ◌<◌, length, slice_index_or, slice_set};
ghost use Rattle.process_table.specs.Changes.{receives};

use crate::rows::Row;
use crate::table::ProcessTable;
use unix_names::{Signal, is_living};

/// Generates signals for a row in order, if it lives.
fn receive(row: &mut Row, signals: &[Signal])
    ensures { row.new ≡ receives (λ c. signals.now) row.old }
{
    if is_living(row.life) {
        row.sig.generate_all(signals);
    }
}

/// Generates signals for the row at a place.
fn receive_at(rows: &mut Vec<Row>, at: usize, signals: &[Signal])
    requires { at < length rows.old.items }
    ensures { (d : _) → rows.new.items ≡ slice_set rows.old.items at (receives (λ c. signals.now) (slice_index_or rows.old.items at d)) }
{
    receive(&mut rows[at], signals);
}

impl ProcessTable {
    /// Generates signals in order for the row at a place, counted from 0, if it lives.
    pub fn receive(&mut self, at: usize, signals: &[Signal])
        requires { at < length self.old }
        ensures { (d : _) → self.new ≡ slice_set self.old at (receives (λ c. signals.now) (slice_index_or self.old at d)) }
    {
        receive_at(&mut self.rows, at, signals);
    }
}
