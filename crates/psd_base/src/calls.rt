//! Calls that are counted, some of which are to fail.
ghost use Rattle.std.specs.Prelude.{◌≡◌, OnOk, OnErr};
ghost use Rattle.psd_base.specs.Calls.{no_calls, next_failure, with_next_call, with_failing};

use std::alloc::{AllocError, Global};
use std::marker::Model;

/// A call that is to fail. Calls are numbered from 1.
#[derive(Clone, Copy, Debug)]
pub struct FailingCall {
    pub call: u64,
    /// How many bytes a write keeps at most.
    pub kept: u64,
}

/// How many calls were made, and which of them are to fail.
#[derive(Debug, Drop)]
pub struct Calls {
    made: u64,
    failing: Vec<FailingCall>,
}

impl Model for Calls {
    ghost use Rattle.psd_base.specs.Calls.{Counted};

    ghost Value = { Counted };

    ghost view = { λ calls. record { made = calls.made; failing = calls.failing.items } };
}

impl Calls {
    /// No calls, none of which is to fail.
    pub fn new(alloc: Global) -> Calls
        ensures { result ≡ no_calls }
    {
        Calls {
            made: 0,
            failing: Vec::new(alloc),
        }
    }

    /// Makes the call of this number fail, from 1 for the first.
    pub fn fail(&mut self, call: u32, kept: u32) -> Result<(), AllocError>
        ensures listed { OnOk result (self.new ≡ with_failing self.old call kept) }
        ensures err { OnErr result (self.new ≡ self.old) }
    {
        self.failing.push(FailingCall {
            call: u64::from(call),
            kept: u64::from(kept),
        })?;
        Ok(())
    }

    /// Counts a call, and answers how many bytes it keeps at most, where it is to fail.
    pub fn next(&mut self) -> Option<u64>
        ensures answer { result ≡ next_failure self.old }
        ensures after { self.new ≡ with_next_call self.old }
    {
        self.made = self.made.saturating_add(1);
        let call = self.made;
        let failure = self.failing.iter().find(|failure| failure.call == call)?;
        Some(failure.kept)
    }
}
