ghost use Rattle.std.specs.Prelude.{◌≡◌, ◌+◌, ◌-◌, ◌<◌, ◌≤◌, ◌^◌, ◌↔◌, IfSome, IsSome, IsTrue};
ghost use Rattle.recording_model.specs.Ledger.{is_in_range};

use recording_model::Row;
use std::marker::Model;

/// The position that the next entry of a stream has where none is lost, counted from 0 at the
/// stream's first sample.
#[derive(Debug, Drop)]
pub struct Expected {
    next: u64,
}

impl Model for Expected {
    ghost use Rattle.std.specs.Prelude.{ℕ};

    ghost Value = { ℕ };

    ghost view = { λ e. e.next };
}

impl Expected {
    /// Before any entry position 0 is expected.
    pub fn new() -> Expected
        ensures { result ≡ 0 }
    {
        Expected { next: 0 }
    }

    /// The row of the positions that are missing before one that comes, where there are any: from the
    /// expected one to the one before it. From then on the position behind it is expected. It takes no
    /// memory. This project's own.
    pub fn gap_before(&mut self, stream: u32, position: u64) -> Option<Row>
        requires low { self.old ≤ position }
        requires high { position < 2 ^ 62 }
        requires stream_low { 1 ≤ stream }
        requires stream_high { stream ≤ 65_535 }
        ensures some { IsSome result ↔ (self.old < position) }
        ensures row { IfSome result (λ row. row ≡ record { stream = stream; first = self.old; count = position - self.old }) }
        ensures in_range { IfSome result (λ row. IsTrue (is_in_range row)) }
        ensures next { self.new ≡ position + 1 }
    {
        let first = self.next;
        self.next = position + 1;
        if first == position {
            return None;
        }
        Some(Row {
            stream,
            first,
            count: position - first,
        })
    }
}
