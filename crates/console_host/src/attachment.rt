//! The enumeration of one peripheral.
ghost use Rattle.std.specs.Prelude.{◌≡◌, ◌+◌, ◌<◌, ◌≤◌, ◌++◌, List, [], ◌∷◌, length, IfSome, IsTrue, MatchOption, option_copied};
ghost use Rattle.peripheral_filter.specs.Steps.{is_packet_size};
ghost use Rattle.psd_base.specs.declared.console.Plug.{Plug};
ghost use Rattle.peripheral_filter.specs.declared.rule.RuleSet.{RuleSet};
ghost use Rattle.console_host.specs.declared.fit.TheConstants.{INTERFACES_MAX};
ghost use Rattle.psd_base.specs.declared.packet.TheConstants.{BLOCK_SIZE};
ghost use Rattle.usb_descriptor.specs.Fault.{config_fault};
ghost use Rattle.usb_descriptor.specs.View.{configuration_value};
ghost use Rattle.console_host.specs.declared.order.TheConstants.{DEVICE, GET_DEVICE};
ghost use Rattle.console_host.specs.Replies.{reply_of};
ghost use Rattle.console_host.specs.Fits.{misfits, barring_rules};
ghost use Rattle.console_host.specs.Judging.{least_from};
ghost use Rattle.console_host.specs.Plan.{is_none};
ghost use Rattle.console_host.specs.Lives.{Call, Began, Replied, Ticked, LifeDropped, Detached, standing, next_in, notes_in, is_silent_in, accepted_of, is_ready_in, layout_in, place_in, shape_of_life};

use crate::configuration::{judge_configuration, shape_of, sort_interfaces};
use crate::descriptors::{DEVICE_SIZE, Descriptors, Shape};
use crate::device::judge_device;
use crate::fit::{Fits, INTERFACES_MAX, ReportAsk, ask_after, least_barred, note_barred};
use crate::head::judge_head;
use crate::interface::{Interface, layout_of, place_of};
use crate::next::{Next, SILENCE};
use crate::order::CONFIGURE;
use crate::packet_size::PacketSize;
use crate::rank::lesser;
use crate::report::judge_report;
use crate::rules::SILENT;
use crate::status::{STALL, judge_status};
use crate::step::{Outcome, Phase, Step, plain_outcome};
use crate::total::TotalLength;
use arrayvec::ArrayVec;
use hid_report::Layout;
use peripheral_filter::fixed::NO_INTERFACE;
use peripheral_filter::{RuleSet, Verdict};
use psd_base::console::{Note, Notes, Order, Plug, RuleName};
use psd_base::event::Tick;
use psd_base::packet::{Block, Bytes};
use usb_descriptor::{DeviceDesc, read_config};

/// What no peripheral looks like.
const NO_SHAPE: Shape = Shape {
    value: 0,
    max0: 0,
    ins: 0,
    outs: 0,
};

/// One plug of the console, and the enumeration of the peripheral in it.
///
/// A life is a span in which the peripheral has power. Each life is enumerated anew. The promises of a call hold for each list
/// of calls for which the attachment stood before it.
#[derive(Drop)]
pub struct Attachment {
    plug: Plug,
    phase: Phase,
    /// The device descriptor of the present life.
    device: Bytes<DEVICE_SIZE>,
    /// The configuration of the present life.
    configuration: Block,
    size: PacketSize,
    shape: Shape,
    fits: Fits,
    /// The interfaces that are accepted in the present life.
    accepted: ArrayVec<Interface, INTERFACES_MAX>,
    /// Of the rules that refused asked interfaces in the present life the first.
    least: Option<RuleName>,
    /// The descriptors of the first life since the attachment that became ready.
    known: Option<Descriptors>,
}

impl Attachment {
    ghost use Rattle.console_host.specs.Stands.{AttachmentStands};
    ghost use Rattle.console_host.specs.Machine.{awaited, answered_with, answered_next, answered_notes, device_outcome, device_reading, with_device, plain_outcome, configuration_verdict, with_configuration, configuration_notes, status_verdict, configured_outcome, configured_notes, silence_verdict, after_report, report_outcome, report_notes, turn_outcome, turn_notes, with_finding, finding_notes, settled, settled_next, settled_notes, with_known, judged, judged_notes, outcome_of, outcome_by, turn_by, is_overdue, number_of, setup_of};

    /// A plug to which nothing was attached yet.
    pub fn new(plug: Plug) -> Attachment
        ensures { (rules : RuleSet) → AttachmentStands plug rules result [] }
    {
        Attachment {
            plug,
            phase: Phase::Vacant,
            device: Bytes::new(),
            configuration: Block::new(),
            size: PacketSize::new(8),
            shape: NO_SHAPE,
            fits: ArrayVec::new(),
            accepted: ArrayVec::new(),
            least: None,
            known: None,
        }
    }

    /// Begins the life of this number, at this tick. Gives its first order.
    pub fn begin(&mut self, life: u32, tick: Tick) -> Order
        ensures stands { (plug : Plug) (rules : RuleSet) (past : List Call)
            → AttachmentStands plug rules self.old past
            → AttachmentStands plug rules self.new (Began life tick ∷ past) }
        ensures order { (plug : Plug) (rules : RuleSet) (past : List Call)
            → AttachmentStands plug rules self.old past
            → result ≡ Order.Ask plug life DEVICE GET_DEVICE }
    {
        self.forget();
        self.phase = Phase::Asking {
            life,
            since: tick,
            step: Step::Device,
        };
        self.ask(life, &Step::Device)
    }

    /// Takes a reply to the order of this number in this life. The status is 0 where the request was served, and 1 where it was
    /// stalled; others say that it failed. Appends the lines for the log to `notes`: those of interfaces first, then the
    /// device's where the reply makes it ready or refuses it.
    ///
    /// The rules are those that were given at every earlier reply of this life.
    pub fn reply(
        &mut self,
        rules: &RuleSet,
        life: u32,
        number: u32,
        tick: Tick,
        status: u8,
        bytes: &[u8],
        notes: &mut Notes,
    ) -> Next
        requires { notes.old.items ≡ [] }
        ensures stands { (plug : Plug) (past : List Call) → AttachmentStands plug rules.now self.old past
            → AttachmentStands plug rules.now self.new (Replied life number tick
            (reply_of status bytes.now) ∷ past) }
        ensures answer { (plug : Plug) (past : List Call) → AttachmentStands plug rules.now self.old past
            → result ≡ next_in plug rules.now life number tick (reply_of status bytes.now)
            (standing plug rules.now past).life }
        ensures notes { (plug : Plug) (past : List Call) → AttachmentStands plug rules.now self.old past
            → notes.new.items ≡ notes_in plug rules.now life number (reply_of status bytes.now)
            (standing plug rules.now past).life }
        ensures ignored { result ≡ Next.Ignored → self.new ≡ self.old }
        ensures few { length notes.new.items ≤ 2 + INTERFACES_MAX }
    {
        self.answer(rules, life, number, tick, status, bytes, notes)
    }

    /// Lets the clock tick. Gives whether an order has been outstanding for `SILENCE` ticks; it is then given up.
    pub fn clock(&mut self, tick: Tick) -> bool
        ensures stands { (plug : Plug) (rules : RuleSet) (past : List Call)
            → AttachmentStands plug rules self.old past
            → AttachmentStands plug rules self.new (Ticked tick ∷ past) }
        ensures answer { (plug : Plug) (rules : RuleSet) (past : List Call)
            → AttachmentStands plug rules self.old past
            → result ≡ is_silent_in plug rules tick (standing plug rules past).life }
    {
        if self.is_overdue(tick) {
            self.phase = Phase::Ended;
            true
        } else {
            false
        }
    }

    /// The layout of an interface that is accepted in the present life, by its bInterfaceNumber.
    pub fn accepted(&self, interface: u8) -> Option<&Layout>
        ensures { (plug : Plug) (rules : RuleSet) (past : List Call)
            → AttachmentStands plug rules self.now past
            → option_copied result ≡ layout_in interface (accepted_of plug (standing plug rules past).life) }
    {
        layout_of(self.accepted.as_slice(), interface)
    }

    /// The place of an interface of this number among those that are accepted in the present life, in the
    /// configuration's order.
    pub fn place(&self, interface: u8) -> Option<usize>
        ensures place { (plug : Plug) (rules : RuleSet) (past : List Call)
            → AttachmentStands plug rules self.now past
            → result ≡ place_in interface (accepted_of plug (standing plug rules past).life) }
        ensures within { IfSome result (λ place. place < INTERFACES_MAX) }
    {
        place_of(self.accepted.as_slice(), interface)
    }

    /// Whether the present life is ready.
    pub fn is_ready(&self) -> bool
        ensures { (plug : Plug) (rules : RuleSet) (past : List Call)
            → AttachmentStands plug rules self.now past
            → result ≡ is_ready_in plug rules (standing plug rules past).life }
    {
        match self.phase {
            Phase::Vacant => false,
            Phase::Asking { .. } => false,
            Phase::Ready => true,
            Phase::Ended => false,
        }
    }

    /// The device descriptor and the configuration of the first life since the attachment that became ready.
    pub fn accepted_bytes(&self) -> Option<(&[u8], &[u8])>
        ensures { (plug : Plug) (rules : RuleSet) (past : List Call)
            → AttachmentStands plug rules self.now past
            → MatchOption result ((standing plug rules past).accepted ≡ None)
            (λ p. (standing plug rules past).accepted ≡ Some
            (record { device = p.0.now; configuration = p.1.now })) }
    {
        match &self.known {
            None => None,
            Some(known) => Some((known.device.as_slice(), known.configuration.as_slice())),
        }
    }

    /// What the peripheral looks like to a host. None exactly where the present life isn't ready.
    pub fn shape(&self) -> Option<Shape>
        ensures sized { IfSome result (λ shape. IsTrue (is_packet_size shape.max0)) }
        ensures shape { (plug : Plug) (rules : RuleSet) (past : List Call)
            → AttachmentStands plug rules self.now past
            → result ≡ shape_of_life plug rules (standing plug rules past).life }
    {
        match self.phase {
            Phase::Vacant => None,
            Phase::Asking { .. } => None,
            Phase::Ready => Some(Shape {
                max0: self.size.bytes(),
                ..self.shape
            }),
            Phase::Ended => None,
        }
    }

    /// Ends the present life, as the peripheral loses its power.
    pub fn drop_life(&mut self)
        ensures { (plug : Plug) (rules : RuleSet) (past : List Call)
            → AttachmentStands plug rules self.old past
            → AttachmentStands plug rules self.new (LifeDropped ∷ past) }
    {
        self.forget();
        self.phase = Phase::Vacant;
    }

    /// Ends the present life, and forgets which descriptors were accepted, as the peripheral is taken off.
    pub fn detach(&mut self)
        ensures { (plug : Plug) (rules : RuleSet) (past : List Call)
            → AttachmentStands plug rules self.old past
            → AttachmentStands plug rules self.new (Detached ∷ past) }
    {
        self.forget();
        self.phase = Phase::Vacant;
        self.known = None;
    }

    /// Forgets what the interfaces of the present life came to.
    fn forget(&mut self)
        ensures { self.new ≡ record self.old { accepted = record { items = [] }; least = None } }
    {
        self.accepted.clear();
        self.least = None;
    }

    /// The order of this step.
    fn ask(&self, life: u32, step: &Step) -> Order
        ensures { result ≡ Order.Ask self.now.plug life (number_of step.now) (setup_of step.now) }
    {
        Order::Ask {
            plug: self.plug,
            life,
            number: step.number(),
            setup: step.setup(),
        }
    }

    fn is_overdue(&self, tick: Tick) -> bool
        ensures { result ≡ is_overdue tick self.now.phase }
    {
        match self.phase {
            Phase::Asking { since, .. } => since <= tick && tick - since >= SILENCE,
            Phase::Vacant => false,
            Phase::Ready => false,
            Phase::Ended => false,
        }
    }

    /// The step of the outstanding order, where a reply with this life and number is one to it.
    fn awaited(&self, life: u32, number: u32) -> Option<Step>
        ensures { result ≡ awaited life number self.now.phase }
    {
        match self.phase {
            Phase::Asking {
                life: present,
                step,
                ..
            } => {
                if present == life && step.number() == number {
                    Some(step)
                } else {
                    None
                }
            }
            Phase::Vacant => None,
            Phase::Ready => None,
            Phase::Ended => None,
        }
    }

    fn answer(
        &mut self,
        rules: &RuleSet,
        life: u32,
        number: u32,
        tick: Tick,
        status: u8,
        bytes: &[u8],
        notes: &mut Notes,
    ) -> Next
        requires { notes.old.items ≡ [] }
        ensures after { self.new ≡ answered_with (awaited life number self.old.phase) rules.now life tick
            (reply_of status bytes.now) self.old }
        ensures next { result ≡ answered_next (awaited life number self.old.phase) rules.now life
            (reply_of status bytes.now) self.old }
        ensures notes { notes.new.items ≡ answered_notes (awaited life number self.old.phase) rules.now
            (reply_of status bytes.now) self.old }
        ensures few { length self.old.fits.items ≤ INTERFACES_MAX
            → length self.new.fits.items ≤ INTERFACES_MAX }
        ensures few_notes { length notes.new.items ≤ 2 + INTERFACES_MAX }
    {
        match self.awaited(life, number) {
            None => Next::Ignored,
            Some(step) => {
                let outcome = self.judge(step, rules, status, bytes, notes);
                self.settle(outcome, life, tick, notes)
            }
        }
    }

    /// Judges a reply to the order of this step, and keeps what is needed of it.
    fn judge(
        &mut self,
        step: Step,
        rules: &RuleSet,
        status: u8,
        bytes: &[u8],
        notes: &mut Notes,
    ) -> Outcome
        requires { notes.old.items ≡ [] }
        ensures outcome { result ≡ outcome_of step rules.now (reply_of status bytes.now) self.old }
        ensures after { self.new ≡ judged step rules.now (reply_of status bytes.now) self.old }
        ensures notes { notes.new.items ≡ judged_notes step rules.now (reply_of status bytes.now) self.old }
        ensures few_notes { length notes.new.items ≤ 1 + INTERFACES_MAX }
        ensures few { length self.old.fits.items ≤ INTERFACES_MAX
            → length self.new.fits.items ≤ INTERFACES_MAX }
    {
        match step {
            Step::Device => self.judge_device(status, bytes),
            Step::Address(device) => plain_outcome(judge_status(status), Step::Head(device)),
            Step::Head(device) => match judge_head(status, bytes) {
                Ok(total) => Outcome::Ask(Step::Configuration(device, total)),
                Err(rule) => Outcome::Refused(rule),
            },
            Step::Configuration(device, total) => {
                self.judge_configuration(&device, total, rules, status, bytes, notes)
            }
            Step::Configure(_) => self.judge_configured(status, notes),
            Step::Report(ask) => self.judge_report(ask, status, bytes, notes),
        }
    }

    fn judge_device(&mut self, status: u8, bytes: &[u8]) -> Outcome
        ensures outcome { result ≡ device_outcome (device_reading self.old.known
            (reply_of status bytes.now)) }
        ensures after { self.new ≡ with_device (device_reading self.old.known
            (reply_of status bytes.now)) bytes.now self.old }
    {
        match judge_device(&self.known, status, bytes) {
            Ok(device) => {
                self.device = Bytes::from_slice(bytes);
                self.size = PacketSize::new(device.max0);
                Outcome::Ask(Step::Address(device))
            }
            Err(rule) => Outcome::Refused(rule),
        }
    }

    fn judge_configuration(
        &mut self,
        device: &DeviceDesc,
        total: TotalLength,
        rules: &RuleSet,
        status: u8,
        bytes: &[u8],
        notes: &mut Notes,
    ) -> Outcome
        requires { notes.old.items ≡ [] }
        ensures outcome { result ≡ plain_outcome (configuration_verdict rules.now device.now total
            (reply_of status bytes.now) self.old) (Step.Configure (configuration_value bytes.now)) }
        ensures after { self.new ≡ with_configuration (configuration_verdict rules.now device.now total
            (reply_of status bytes.now) self.old) device.now bytes.now self.old }
        ensures notes { notes.new.items ≡ configuration_notes
            (configuration_verdict rules.now device.now total
            (reply_of status bytes.now) self.old) self.old.plug bytes.now }
        ensures few_notes { length notes.new.items ≤ INTERFACES_MAX }
        ensures few { length self.old.fits.items ≤ INTERFACES_MAX
            → length self.new.fits.items ≤ INTERFACES_MAX }
    {
        match judge_configuration(self.plug, rules, device, total, &self.known, status, bytes) {
            Verdict::Refused(rule) => Outcome::Refused(rule),
            Verdict::Accepted => self.keep_configuration(device, bytes, notes),
        }
    }

    /// Keeps a configuration that no rule refuses.
    fn keep_configuration(
        &mut self,
        device: &DeviceDesc,
        bytes: &[u8],
        notes: &mut Notes,
    ) -> Outcome
        requires none { notes.old.items ≡ [] }
        requires short { length bytes.now ≤ BLOCK_SIZE }
        requires faultless { config_fault bytes.now ≡ None }
        ensures outcome { result ≡ Outcome.Ask (Step.Configure (configuration_value bytes.now)) }
        ensures after { self.new ≡ with_configuration Verdict.Accepted device.now bytes.now self.old }
        ensures notes { notes.new.items ≡ misfits self.old.plug bytes.now }
        ensures few_notes { length notes.new.items ≤ INTERFACES_MAX }
        ensures few { length self.new.fits.items ≤ INTERFACES_MAX }
    {
        match read_config(bytes) {
            Ok(config) => {
                self.configuration = Block::from_slice(bytes);
                self.shape = shape_of(device, &config);
                sort_interfaces(self.plug, &config, &mut self.fits, notes);
                Outcome::Ask(Step::Configure(config.value()))
            }
            Err(_) => unreachable!(),
        }
    }

    fn judge_configured(&mut self, status: u8, notes: &mut Notes) -> Outcome
        requires { notes.old.items ≡ [] }
        ensures outcome { result ≡ configured_outcome (status_verdict status) self.old }
        ensures after { self.new ≡ self.old }
        ensures notes { notes.new.items ≡ configured_notes (status_verdict status) self.old }
        ensures few { length notes.new.items ≤ 1 + INTERFACES_MAX }
    {
        match judge_status(status) {
            Verdict::Refused(rule) => Outcome::Refused(rule),
            Verdict::Accepted => self.turn(CONFIGURE, notes),
        }
    }

    fn judge_report(
        &mut self,
        ask: ReportAsk,
        status: u8,
        bytes: &[u8],
        notes: &mut Notes,
    ) -> Outcome
        requires { notes.old.items ≡ [] }
        ensures outcome { result ≡ report_outcome (silence_verdict status) ask
            (reply_of status bytes.now) self.old }
        ensures after { self.new ≡ after_report (silence_verdict status) ask
            (reply_of status bytes.now) self.old }
        ensures notes { notes.new.items ≡ report_notes (silence_verdict status) ask
            (reply_of status bytes.now) self.old }
        ensures few { length notes.new.items ≤ 1 + INTERFACES_MAX }
    {
        if status > STALL {
            return Outcome::Refused(SILENT);
        }
        let finding = judge_report(self.plug, ask.length, status, bytes);
        self.keep_finding(ask.interface, finding, notes);
        self.turn(ask.number, notes)
    }

    /// Keeps what the asked interface came to, and notes it.
    fn keep_finding(&mut self, interface: u8, finding: Result<Layout, RuleName>, notes: &mut Notes)
        requires { notes.old.items ≡ [] }
        ensures after { self.new ≡ with_finding interface finding self.old }
        ensures notes { notes.new.items ≡ finding_notes self.old.plug interface finding }
    {
        match finding {
            Ok(layout) => {
                let _ = self.accepted.try_push(Interface {
                    number: interface,
                    layout: Some(layout),
                });
                notes.push(Note::InterfaceAccepted {
                    plug: self.plug,
                    interface,
                });
            }
            Err(rule) => {
                self.least = Some(lesser(self.least, rule));
                notes.push(Note::InterfaceRefused {
                    plug: self.plug,
                    interface,
                    rule,
                });
            }
        }
    }

    /// What comes after order `number` is answered. Notes the interfaces that have their turn now and aren't asked.
    fn turn(&self, number: u32, notes: &mut Notes) -> Outcome
        requires { length notes.old.items ≤ 1 }
        ensures outcome { result ≡ turn_outcome self.now number }
        ensures notes { notes.new.items ≡ notes.old.items ++ turn_notes self.now number }
        ensures few { length notes.new.items ≤ 1 + INTERFACES_MAX }
    {
        let fits = self.fits.as_slice();
        note_barred(self.plug, fits, number, notes);
        match ask_after(fits, number) {
            Some(ask) => Outcome::Ask(Step::Report(ask)),
            None => self.conclude(),
        }
    }

    /// What the enumeration comes to once each order is answered.
    fn conclude(&self) -> Outcome
        ensures { result ≡ turn_by self.now None }
    {
        match self.plug {
            Plug::Keyboard => self.conclude_by_interfaces(),
            Plug::Mouse => self.conclude_by_interfaces(),
            Plug::Token => Outcome::Ready,
        }
    }

    fn conclude_by_interfaces(&self) -> Outcome
        ensures { result ≡ outcome_by (is_none self.now.accepted.items) (least_from self.now.least
            (barring_rules self.now.fits.items)) }
    {
        if !self.accepted.is_empty() {
            return Outcome::Ready;
        }
        match least_barred(self.fits.as_slice(), self.least) {
            Some(rule) => Outcome::Refused(rule),
            None => Outcome::Refused(NO_INTERFACE),
        }
    }

    /// Goes on to what a reply came to. Notes it where it is the end.
    fn settle(&mut self, outcome: Outcome, life: u32, tick: Tick, notes: &mut Notes) -> Next
        requires { length notes.old.items ≤ 1 + INTERFACES_MAX }
        ensures after { self.new ≡ settled outcome life tick self.old }
        ensures next { result ≡ settled_next self.old.plug life outcome }
        ensures notes { notes.new.items ≡ notes.old.items ++ settled_notes self.old.plug outcome }
        ensures few { length notes.new.items ≤ length notes.old.items + 1 }
    {
        match outcome {
            Outcome::Ask(step) => {
                let order = self.ask(life, &step);
                self.phase = Phase::Asking {
                    life,
                    since: tick,
                    step,
                };
                Next::Ask(order)
            }
            Outcome::Ready => {
                self.phase = Phase::Ready;
                self.keep_known();
                notes.push(Note::Accepted(self.plug));
                Next::Ready
            }
            Outcome::Refused(rule) => {
                self.phase = Phase::Ended;
                notes.push(Note::Refused {
                    plug: self.plug,
                    rule,
                });
                Next::Refused(rule)
            }
        }
    }

    /// Keeps the descriptors, where none were accepted before.
    fn keep_known(&mut self)
        ensures { self.new ≡ with_known self.old.known self.old }
    {
        if self.known.is_none() {
            self.known = Some(Descriptors {
                device: self.device.duplicate(),
                configuration: self.configuration.duplicate(),
            });
        }
    }
}
