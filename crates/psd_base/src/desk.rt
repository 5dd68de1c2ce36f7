//! The desk: from where a run reads, and where it writes.
ghost use Rattle.std.specs.Prelude.{◌≡◌, ℕ, ◌<◌, ◌≤◌, [], ◌++◌, length, take, Ok, option_map, IfSome, IfOk, OnOk, OnErr};
ghost use Rattle.psd_base.specs.Desk.{IsAppendedPart, OnlyReads, OnlyWrites, ReadFailed, Told, WriteFailed};

use crate::outlet::{Input, Outlet};
use crate::render::{RENDERED_MAX, Render};
use thiserror::Error;

/// A read or a write that failed.
#[derive(Clone, Copy, Debug, PartialEq, Eq, Error)]
#[error("a read or a write failed")]
pub struct DeskFailed;

/// From where a run reads, and where it writes.
///
/// Of each input the desk may tell what is left, and of each outlet what was sent; `None` tells nothing. It counts
/// the failures of each input and each outlet, and these counts never fall.
pub trait Desk {
    ghost use Rattle.psd_base.specs.declared.outlet.Input.{Input};
    ghost use Rattle.psd_base.specs.declared.outlet.Outlet.{Outlet};

    /// What is left of the inputs, what was sent to the outlets, and what failed.
    ghost told: { Self → Told };

    /// Reads the next bytes of an input to the front of `into`, and answers how many. No bytes for a slice that has
    /// room is the end of the input.
    fn read(&mut self, from: Input, into: &mut [u8]) -> Result<usize, DeskFailed>
        ensures within { IfOk result (λ count. count ≤ length into.old) }
        ensures moved { IfOk result (λ count. (told self.old).left from
            ≡ option_map (λ rest. take count into.new ++ rest) ((told self.new).left from)) }
        ensures ended { result ≡ Ok 0 → 0 < length into.old → IfSome ((told self.old).left from)
            (λ rest. rest ≡ []) }
        ensures stays { OnErr result ((told self.new).left from ≡ (told self.old).left from) }
        ensures failed { OnErr result (ReadFailed from (told self.old) (told self.new)) }

        // A read that succeeded counts no failure.
        ensures uncounted { OnOk result ((input : Input) → (told self.new).read_faults input
            ≡ (told self.old).read_faults input) }

        // Nothing else moves.
        ensures only { OnlyReads from (told self.old) (told self.new) };

    /// Appends all bytes to an outlet. A write that failed appended a part of them, from the front.
    fn write(&mut self, to: Outlet, bytes: &[u8]) -> Result<(), DeskFailed>
        ensures appended { OnOk result ((told self.new).sent to
            ≡ option_map (λ before. before ++ bytes.now) ((told self.old).sent to)) }
        ensures part { OnErr result (IsAppendedPart ((told self.old).sent to) ((told self.new).sent to)
            bytes.now) }
        ensures failed { OnErr result (WriteFailed to (told self.old) (told self.new)) }

        // A write that succeeded counts no failure.
        ensures uncounted { OnOk result ((outlet : Outlet) → (told self.new).write_faults outlet
            ≡ (told self.old).write_faults outlet) }

        // Nothing else moves.
        ensures only { OnlyWrites to (told self.old) (told self.new) };

    /// Appends what `item` renders to an outlet, as `write` does with these bytes, and answers how many they are. A
    /// desk may render them where they wait.
    fn write_rendered<T: Render>(&mut self, to: Outlet, item: &T) -> Result<usize, DeskFailed>
        ensures count { IfOk result (λ count. count ≡ length (T.rendered item.now)) }
        ensures most { length (T.rendered item.now) ≤ RENDERED_MAX }
        ensures appended { OnOk result ((told self.new).sent to
            ≡ option_map (λ before. before ++ T.rendered item.now) ((told self.old).sent to)) }
        ensures part { OnErr result (IsAppendedPart ((told self.old).sent to) ((told self.new).sent to)
            (T.rendered item.now)) }
        ensures failed { OnErr result (WriteFailed to (told self.old) (told self.new)) }
        ensures uncounted { OnOk result ((outlet : Outlet) → (told self.new).write_faults outlet
            ≡ (told self.old).write_faults outlet) }
        ensures only { OnlyWrites to (told self.old) (told self.new) };
}
