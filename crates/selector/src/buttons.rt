//! The buttons of the panel, and which pair of them stands.
ghost use Rattle.std.specs.Prelude.{◌≡◌, ℕ, not, ◌&&◌, List, ◌∷◌, length, if◌then◌else◌};
ghost use Rattle.psd_base.specs.declared.port.TheConstants.{MAX_PORTS};
ghost use Rattle.selector.specs.Moments.{Moment, Moved};
ghost use Rattle.selector.specs.Panel.{is_guard_down, is_empty, only_one, is_same_pair};
ghost use Rattle.selector.specs.Buttons.{ButtonsStand, ports_in, pair_in};

use psd_base::console::Panel;
use psd_base::event::Tick;
use psd_base::port::{MAX_PORTS, PortId};

/// Takes what a panel event says of the guard button or of a port's.
pub fn take(guard: &mut bool, buttons: &mut [bool], panel: &Panel)
    requires { length buttons.old ≡ MAX_PORTS }
    ensures guard { (tick : ℕ) (past : List Moment) → guard.old ≡ is_guard_down past
        → guard.new ≡ is_guard_down (Moved tick panel.now ∷ past) }
    ensures buttons { (tick : ℕ) (past : List Moment) → ButtonsStand buttons.old past
        → ButtonsStand buttons.new (Moved tick panel.now ∷ past) }
{
    match panel {
        Panel::Guard(down) => *guard = *down,
        Panel::Button(port, down) => buttons[port.number() as usize - 1] = *down,
        Panel::Check(..) => {}
        Panel::Tamper => {}
    }
}

/// The port whose pair stands: the guard button is down and exactly this port's button.
pub fn pair_of(guard: bool, buttons: &[bool]) -> Option<PortId>
    requires { length buttons.now ≡ MAX_PORTS }
    ensures { result ≡ pair_in guard buttons.now }
{
    if guard { only_down(buttons) } else { None }
}

/// The port whose button is down, if it is the only one.
fn only_down(buttons: &[bool]) -> Option<PortId>
    requires { length buttons.now ≡ MAX_PORTS }
    ensures { result ≡ only_one (ports_in 1 buttons.now) }
{
    let mut found = None;
    for place in 0..MAX_PORTS {
        if buttons[place as usize] {
            match found {
                None => found = PortId::new(place + 1),
                Some(_) => return None,
            }
        }
    }
    found
}

/// Whether no button is down.
pub fn are_up(guard: bool, buttons: &[bool]) -> bool
    ensures { result ≡ (not guard && is_empty (ports_in 1 buttons.now)) }
{
    !guard && none_down(buttons)
}

/// Whether no port's button is down.
fn none_down(buttons: &[bool]) -> bool
    ensures { result ≡ is_empty (ports_in 1 buttons.now) }
{
    for down in buttons {
        if *down {
            return false;
        }
    }
    true
}

/// Takes the pair that stands now: it goes on where it is the same, and else begins at `tick`.
pub fn hold(pair: &mut Option<PortId>, held_since: &mut Tick, now: Option<PortId>, tick: Tick)
    ensures pair { pair.new ≡ now }
    ensures since { held_since.new ≡ (if is_same_pair pair.old now then held_since.old else tick) }
{
    match *pair {
        None => match now {
            None => {}
            Some(_) => *held_since = tick,
        },
        Some(before) => match now {
            None => *held_since = tick,
            Some(port) => {
                if before != port {
                    *held_since = tick;
                }
            }
        },
    }
    *pair = now;
}
