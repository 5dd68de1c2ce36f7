//! Where an enumeration stands.
ghost use Rattle.std.specs.Prelude.{◌≡◌};
ghost use Rattle.console_host.specs.Machine.{number_of, setup_of, plain_outcome};

use crate::fit::ReportAsk;
use crate::order::{
    ADDRESS, CONFIGURATION, CONFIGURE, DEVICE, GET_DEVICE, GET_HEAD, HEAD, SET_ADDRESS,
    get_configuration, get_report, set_configuration,
};
use crate::total::TotalLength;
use peripheral_filter::Verdict;
use psd_base::console::RuleName;
use psd_base::event::Tick;
use psd_base::setup::Setup;
use usb_descriptor::DeviceDesc;

/// What the outstanding order asks, with what the replies before it gave.
#[derive(Clone, Copy)]
pub enum Step {
    Device,
    Address(DeviceDesc),
    Head(DeviceDesc),
    Configuration(DeviceDesc, TotalLength),
    /// With the bConfigurationValue.
    Configure(u8),
    Report(ReportAsk),
}

/// Where the present life stands.
#[derive(Clone, Copy)]
pub enum Phase {
    /// There is no present life.
    Vacant,
    /// An order is outstanding.
    Asking {
        life: u32,
        /// The tick of the order.
        since: Tick,
        step: Step,
    },
    /// The peripheral is ready.
    Ready,
    /// The peripheral was refused, or its order was given up.
    Ended,
}

/// What a reply comes to.
#[derive(Clone, Copy)]
pub enum Outcome {
    Ask(Step),
    Ready,
    Refused(RuleName),
}

impl Step {
    /// The number of the order in its life.
    pub fn number(&self) -> u32
        ensures { result ≡ number_of self.now }
    {
        match self {
            Step::Device => DEVICE,
            Step::Address(_) => ADDRESS,
            Step::Head(_) => HEAD,
            Step::Configuration(..) => CONFIGURATION,
            Step::Configure(_) => CONFIGURE,
            Step::Report(ask) => ask.number,
        }
    }

    /// The setup of the order.
    pub fn setup(&self) -> Setup
        ensures { result ≡ setup_of self.now }
    {
        match self {
            Step::Device => GET_DEVICE,
            Step::Address(_) => SET_ADDRESS,
            Step::Head(_) => GET_HEAD,
            Step::Configuration(_, total) => get_configuration(total.bytes()),
            Step::Configure(value) => set_configuration(*value),
            Step::Report(ask) => get_report(ask),
        }
    }
}

/// What a reply comes to whose bytes aren't read.
pub fn plain_outcome(verdict: Verdict, after: Step) -> Outcome
    ensures { result ≡ plain_outcome verdict after }
{
    match verdict {
        Verdict::Accepted => Outcome::Ask(after),
        Verdict::Refused(rule) => Outcome::Refused(rule),
    }
}
