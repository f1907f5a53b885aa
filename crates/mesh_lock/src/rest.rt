//! `Rest`: the remaining calls of a seat.
ghost use Rattle.std.specs.Prelude.{◌≡◌};
ghost use Rattle.std.specs.List.{All};
ghost use Rattle.mesh_lock.specs.Seat.{IsKept};

use crate::kept::Kept;
use std::marker::Model;

/// The calls of a seat that the walk of the journal has not taken yet.
#[derive(Drop)]
pub struct Rest<'a> {
    calls: &'a [Kept],
}

impl<'a> Model for Rest<'a> {
    ghost use Rattle.std.specs.List.{All};
    ghost use Rattle.std.specs.Prelude.{List};
    ghost use Rattle.std.specs.Coded.{coded_list};
    ghost use Rattle.model_memory.specs.Reads.{Kept as PlainKept};
    ghost use Rattle.mesh_lock.specs.Seat.{IsKept, kept_code};

    ghost Value = { List PlainKept };

    ghost coded = { coded_list kept_code };

    ghost view = { λ r. r.calls.now };

    ghost invariant = { λ r. All IsKept r.calls.now };
}

impl<'a> Rest<'a> {
    /// Returns these calls as a `Rest`.
    pub(crate) fn of(calls: &'a [Kept]) -> Rest<'a>
        requires { All IsKept calls.now }
        ensures { result ≡ calls.now }
    {
        Rest { calls }
    }

    /// The calls.
    pub(crate) fn calls(&self) -> &'a [Kept]
        ensures calls { result.now ≡ self.now }
        ensures kept { All IsKept result.now }
    {
        self.calls
    }
}
