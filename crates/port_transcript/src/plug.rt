//! The names of plugs: `KEYBOARD`, `MOUSE` and `TOKEN`.
ghost use Rattle.std.specs.Prelude.{◌≡◌, ◌≤◌, length};
ghost use Rattle.port_transcript.specs.Plug.{plug_text};

use psd_base::Plug;

/// The most bytes of a plug's name.
pub(crate) const PLUG_SIZE: usize = 8;

/// The name of the plug.
#[tactic(auto, unfolding(crate::specs::Plug::plug_text))]
pub(crate) fn plug_name(plug: Plug) -> &'static [u8]
    ensures name { result.now ≡ plug_text plug }
    ensures len { length result.now ≤ PLUG_SIZE }
{
    match plug {
        Plug::Keyboard => b"KEYBOARD",
        Plug::Mouse => b"MOUSE",
        Plug::Token => b"TOKEN",
    }
}
