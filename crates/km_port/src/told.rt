//! What the keyboard and the mouse of a port are told.
ghost use Rattle.std.specs.Prelude.{◌≡◌, Bool, true, false, List, ◌∷◌};
ghost use Rattle.emulated_keyboard.specs.KeyboardHistory.{KeyboardEntry};
ghost use Rattle.emulated_keyboard.specs.KeyboardHistory as typed;
ghost use Rattle.emulated_keyboard.specs.KeyboardStands.{KeyboardStands};
ghost use Rattle.emulated_mouse.specs.MouseHistory.{MouseEntry};
ghost use Rattle.emulated_mouse.specs.MouseHistory as moved;
ghost use Rattle.emulated_mouse.specs.MouseStands.{MouseStands};
ghost use Rattle.km_port.specs.PortStands.{IsEntered};
ghost use Rattle.km_port.specs.Told.{keyboard_told, mouse_told};

use crate::km_function::KmFunction;
use control_pipe::reaction::Effect;
use psd_base::event::Tick;

impl KmFunction {
    /// The keyboard and the mouse are those of the selected port, from this tick on.
    pub(crate) fn enter(&mut self, tick: Tick)
        requires { IsEntered false self.old }
        ensures entered { IsEntered true self.new }
        ensures keyboard { (past : List KeyboardEntry) → KeyboardStands self.old.keyboard past
            → KeyboardStands self.new.keyboard (typed.Entered tick ∷ past) }
        ensures mouse { (past : List MouseEntry) → MouseStands self.old.mouse past
            → MouseStands self.new.mouse (moved.Entered ∷ past) }
    {
        self.keyboard.enter(tick);
        self.mouse.enter(tick);
    }

    /// The keyboard and the mouse are no longer those of the selected port.
    pub(crate) fn part(&mut self)
        requires { IsEntered true self.old }
        ensures entered { IsEntered false self.new }
        ensures keyboard { (past : List KeyboardEntry) → KeyboardStands self.old.keyboard past
            → KeyboardStands self.new.keyboard (typed.Parted ∷ past) }
        ensures mouse { (past : List MouseEntry) → MouseStands self.old.mouse past
            → MouseStands self.new.mouse (moved.Parted ∷ past) }
    {
        self.keyboard.part();
        self.mouse.part();
    }

    /// A request was completed at this tick, or the bus was reset.
    pub(crate) fn tell(&mut self, tick: Tick, effect: Effect)
        ensures entered { (entered : Bool) → IsEntered entered self.old → IsEntered entered self.new }
        ensures keyboard { (past : List KeyboardEntry) → KeyboardStands self.old.keyboard past
            → KeyboardStands self.new.keyboard (keyboard_told tick effect past) }
        ensures mouse { (past : List MouseEntry) → MouseStands self.old.mouse past
            → MouseStands self.new.mouse (mouse_told effect past) }
    {
        match effect {
            Effect::Nothing => {}
            Effect::Reset => {
                self.keyboard.reset(tick);
                self.mouse.reset(tick);
            }
            Effect::Configured => {
                self.keyboard.configured();
                self.mouse.configured();
            }
            Effect::Restart(endpoint) => self.restart(endpoint),
        }
    }

    /// The toggle of this endpoint is DATA0 again.
    fn restart(&mut self, endpoint: u8)
        ensures entered { (entered : Bool) → IsEntered entered self.old → IsEntered entered self.new }
        ensures keyboard { (past : List KeyboardEntry) → KeyboardStands self.old.keyboard past
            → KeyboardStands self.new.keyboard (keyboard_told 0 (Effect.Restart endpoint) past) }
        ensures mouse { (past : List MouseEntry) → MouseStands self.old.mouse past
            → MouseStands self.new.mouse (mouse_told (Effect.Restart endpoint) past) }
    {
        if endpoint == 1 {
            self.keyboard.restart();
        } else if endpoint == 2 {
            self.mouse.restart();
        }
    }
}
