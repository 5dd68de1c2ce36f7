//! How often the switch goes from one port to another.
ghost use Rattle.std.specs.Prelude.{◌≡◌, ◌<◌, None};
ghost use Rattle.switch_core.specs.Visits.{visited};

use psd_base::port::PortId;

/// The port of the last act, and how many acts weren't at the port of the act before them.
#[derive(Clone, Copy, Debug, PartialEq, Eq)]
pub struct Visits {
    pub last: Option<PortId>,
    pub count: u32,
}

impl Visits {
    /// No act so far.
    pub fn none() -> Visits
        ensures { result ≡ record { last = None; count = 0 } }
    {
        Visits {
            last: None,
            count: 0,
        }
    }

    /// Takes an act at this port.
    #[inline(always)]
    pub fn act_at(&mut self, port: PortId)
        requires { self.old.count < u32.MAX }
        ensures { self.new ≡ visited port self.old }
    {
        if self.last != Some(port) {
            self.last = Some(port);
            self.count += 1;
        }
    }
}
