//! The keys that a keyboard shows.
ghost use Rattle.std.specs.Prelude.{◌≡◌, ◌<◌, List, [], ◌∷◌, Some, None, IfSome, option_map};
ghost use Rattle.psd_base.specs.KeySet.{has_no_key, no_keys};
ghost use Rattle.psd_base.specs.declared.console.Plug.TheVariants.{Keyboard};
ghost use Rattle.peripheral_filter.specs.declared.rule.RuleSet.{RuleSet};
ghost use Rattle.console_host.specs.declared.fit.TheConstants.{INTERFACES_MAX};
ghost use Rattle.console_plug.specs.Given.{keys_given};
ghost use Rattle.console_plug.specs.Moments.{Moment, Detached, Darkened, Reported};
ghost use Rattle.console_plug.specs.PlugStands.{PlugStands};
ghost use Rattle.hid_report.specs.Keys.{keys_of};
ghost use Rattle.console_plug.specs.Lives.{life_at};
ghost use Rattle.console_plug.specs.KeySnapshot.{key_snapshot};
ghost use Rattle.console_plug.specs.Shown.{all_keys, shown_keys, snapshot_of};

use crate::plug::ConsolePlug;
use console_host::INTERFACES_MAX;
use psd_base::KeySet;

/// What a report of a keyboard says, and the place of its interface among the accepted ones.
#[derive(Clone, Copy)]
struct KeySnapshot {
    place: usize,
    keys: KeySet,
}

/// Of each accepted interface of a keyboard the keys that its last report has down, and the union of these.
#[derive(Drop)]
pub struct ShownKeys {
    each: [KeySet; INTERFACES_MAX],
    all: KeySet,
}

impl ShownKeys {
    ghost use Rattle.console_plug.specs.ShownStands.{KeysStand};

    /// Nothing was reported.
    #[tactic(auto, unfolding(crate::specs::Shown::shown_keys))]
    pub fn new() -> ShownKeys
        ensures { (rules : RuleSet) → KeysStand rules result [] }
    {
        let each = [KeySet::new(); INTERFACES_MAX];
        ShownKeys {
            all: all_keys(&each),
            each,
        }
    }

    /// A report of this interface came from the keyboard at the plug. Gives all keys that are shown after it. One that
    /// isn't that of an accepted interface, or that its layout doesn't read, changes nothing and gives nothing.
    #[tactic(auto, using(crate::proofs::Snapshots::snapshot_laws), unfolding(crate::specs::Shown::shown_keys))]
    pub fn report(&mut self, plug: &ConsolePlug, interface: u8, bytes: &[u8]) -> Option<KeySet>
        ensures stands { (rules : RuleSet) (past : List Moment) → PlugStands Keyboard rules plug.now past
            → KeysStand rules self.old past
            → KeysStand rules self.new (Reported interface bytes.now ∷ past) }
        ensures given { (rules : RuleSet) (past : List Moment) → PlugStands Keyboard rules plug.now past
            → KeysStand rules self.old past
            → result ≡ keys_given rules (Reported interface bytes.now) past }
    {
        match read(plug, interface, bytes) {
            Some(snapshot) => {
                self.each[snapshot.place] = snapshot.keys;
                self.all = all_keys(&self.each);
                Some(self.all)
            }
            None => None,
        }
    }

    /// The keyboard is taken off, or the switch goes dark.
    #[tactic(auto, unfolding(crate::specs::Shown::shown_keys))]
    pub fn clear(&mut self)
        ensures detached { (rules : RuleSet) (past : List Moment)
            → KeysStand rules self.new (Detached ∷ past) }
        ensures darkened { (rules : RuleSet) (past : List Moment)
            → KeysStand rules self.new (Darkened ∷ past) }
    {
        let each = [KeySet::new(); INTERFACES_MAX];
        self.all = all_keys(&each);
        self.each = each;
    }

    /// The keys that are shown.
    pub fn keys(&self) -> &KeySet
        ensures { (rules : RuleSet) (past : List Moment) → KeysStand rules self.now past
            → result.now ≡ shown_keys rules past }
    {
        &self.all
    }
}

/// What a report of this interface says, if it is one of an accepted interface of a keyboard that is ready.
fn read(plug: &ConsolePlug, interface: u8, bytes: &[u8]) -> Option<KeySnapshot>
    ensures snapshot { (rules : RuleSet) (past : List Moment) → PlugStands Keyboard rules plug.now past
        → option_map key_snapshot result
        ≡ snapshot_of keys_of Keyboard rules interface bytes.now (life_at Keyboard rules past) }
    ensures within { IfSome result (λ snapshot. snapshot.place < INTERFACES_MAX) }
{
    if !plug.is_ready() {
        return None;
    }
    match (plug.place(interface), plug.layout(interface)) {
        (Some(place), Some(layout)) => match layout.keys(bytes) {
            Some(keys) => Some(KeySnapshot { place, keys }),
            None => None,
        },
        _ => None,
    }
}

/// The keys that are in one of the sets.
fn all_keys(sets: &[KeySet]) -> KeySet
    ensures { result ≡ all_keys no_keys sets.now }
{
    let mut keys = KeySet::new();
    for set in sets {
        keys.join(set);
    }
    keys
}
