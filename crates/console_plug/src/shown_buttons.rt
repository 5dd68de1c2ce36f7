//! The buttons that a mouse shows.
ghost use Rattle.std.specs.Prelude.{◌≡◌, ◌<◌, List, [], ◌∷◌, Some, None, IfSome, IsTrue, option_map};
ghost use Rattle.std.specs.List.{list_all};
ghost use Rattle.psd_base.specs.declared.console.Plug.TheVariants.{Mouse};
ghost use Rattle.peripheral_filter.specs.declared.rule.RuleSet.{RuleSet};
ghost use Rattle.console_host.specs.declared.fit.TheConstants.{INTERFACES_MAX};
ghost use Rattle.hid_report.specs.Pointer.{pointer_of};
ghost use Rattle.console_plug.specs.Given.{IsSample, is_button_set, sample_given, with_buttons};
ghost use Rattle.console_plug.specs.Moments.{Moment, Detached, Darkened, Reported};
ghost use Rattle.console_plug.specs.PlugStands.{PlugStands};
ghost use Rattle.console_plug.specs.Lives.{life_at};
ghost use Rattle.console_plug.specs.PointerSnapshot.{button_snapshot, sample_snapshot};
ghost use Rattle.console_plug.specs.Shown.{all_buttons, buttons_of, shown_buttons, snapshot_of};

use crate::plug::ConsolePlug;
use console_host::INTERFACES_MAX;
use psd_base::Sample;

/// What a report of a mouse says, and the place of its interface among the accepted ones.
#[derive(Clone, Copy)]
struct PointerSnapshot {
    place: usize,
    sample: Sample,
}

/// Of each accepted interface of a mouse the buttons that its last report has down, and the union of these.
#[derive(Drop)]
pub struct ShownButtons {
    each: [u8; INTERFACES_MAX],
    all: u8,
    ghost each_small: { IsTrue (list_all is_button_set each) },
    ghost all_small: { all < 32 },
}

impl ShownButtons {
    ghost use Rattle.console_plug.specs.ShownStands.{ButtonsStand};

    /// Nothing was reported.
    #[tactic(auto, unfolding(crate::specs::Shown::shown_buttons))]
    pub fn new() -> ShownButtons
        ensures { (rules : RuleSet) → ButtonsStand rules result [] }
    {
        let each = [0; INTERFACES_MAX];
        ShownButtons {
            all: all_buttons(&each),
            each,
        }
    }

    /// A report of this interface came from the mouse at the plug. Gives its motion, with all buttons that are shown
    /// after it. One that isn't that of an accepted interface, or that its layout doesn't read, changes nothing and
    /// gives nothing.
    #[tactic(auto, using(crate::proofs::Snapshots::snapshot_laws), unfolding(crate::specs::Shown::shown_buttons))]
    pub fn report(&mut self, plug: &ConsolePlug, interface: u8, bytes: &[u8]) -> Option<Sample>
        ensures stands { (rules : RuleSet) (past : List Moment) → PlugStands Mouse rules plug.now past
            → ButtonsStand rules self.old past
            → ButtonsStand rules self.new (Reported interface bytes.now ∷ past) }
        ensures given { (rules : RuleSet) (past : List Moment) → PlugStands Mouse rules plug.now past
            → ButtonsStand rules self.old past
            → result ≡ sample_given rules (Reported interface bytes.now) past }
        ensures form { IfSome result IsSample }
    {
        match read(plug, interface, bytes) {
            Some(snapshot) => {
                self.each[snapshot.place] = snapshot.sample.buttons;
                self.all = all_buttons(&self.each);
                Some(with_buttons(self.all, snapshot.sample))
            }
            None => None,
        }
    }

    /// The mouse is taken off, or the switch goes dark.
    #[tactic(auto, unfolding(crate::specs::Shown::shown_buttons))]
    pub fn clear(&mut self)
        ensures detached { (rules : RuleSet) (past : List Moment)
            → ButtonsStand rules self.new (Detached ∷ past) }
        ensures darkened { (rules : RuleSet) (past : List Moment)
            → ButtonsStand rules self.new (Darkened ∷ past) }
    {
        let each = [0; INTERFACES_MAX];
        self.all = all_buttons(&each);
        self.each = each;
    }

    /// The buttons that are shown, button n in bit n - 1.
    pub fn buttons(&self) -> u8
        ensures { (rules : RuleSet) (past : List Moment) → ButtonsStand rules self.now past
            → result ≡ shown_buttons rules past }
    {
        self.all
    }
}

/// What a report of this interface says, if it is one of an accepted interface of a mouse that is ready.
fn read(plug: &ConsolePlug, interface: u8, bytes: &[u8]) -> Option<PointerSnapshot>
    ensures sample { (rules : RuleSet) (past : List Moment) → PlugStands Mouse rules plug.now past
        → option_map sample_snapshot result
        ≡ snapshot_of pointer_of Mouse rules interface bytes.now (life_at Mouse rules past) }
    ensures buttons { (rules : RuleSet) (past : List Moment) → PlugStands Mouse rules plug.now past
        → option_map button_snapshot result
        ≡ snapshot_of buttons_of Mouse rules interface bytes.now (life_at Mouse rules past) }
    ensures within { IfSome result (λ snapshot. snapshot.place < INTERFACES_MAX) }
    ensures form { IfSome result (λ snapshot. IsSample snapshot.sample) }
{
    if !plug.is_ready() {
        return None;
    }
    match (plug.place(interface), plug.layout(interface)) {
        (Some(place), Some(layout)) => match layout.pointer(bytes) {
            Some(sample) => Some(PointerSnapshot { place, sample }),
            None => None,
        },
        _ => None,
    }
}

/// The motion of a sample, with these buttons.
fn with_buttons(buttons: u8, sample: Sample) -> Sample
    ensures { result ≡ with_buttons buttons sample }
{
    Sample { buttons, ..sample }
}

/// The buttons that are in one of the sets.
fn all_buttons(sets: &[u8]) -> u8
    ensures value { result ≡ all_buttons 0 sets.now }
    ensures small { IsTrue (list_all is_button_set sets.now) → result < 32 }
{
    let mut buttons = 0;
    for set in sets {
        buttons |= set;
    }
    buttons
}
