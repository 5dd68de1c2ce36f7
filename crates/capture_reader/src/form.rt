//! What the head of a record says, and what a line of the script says.
use psd_base::{Panel, Plug, PortId, Side, Tick};

/// The kinds of act of a host.
#[derive(Clone, Copy, Debug, PartialEq, Eq)]
pub enum ActKind {
    Reset,
    Setup,
    Out,
    In,
}

/// What a record can say of a plug of the console.
#[derive(Clone, Copy, Debug, PartialEq, Eq)]
pub enum PlugKind {
    Attach,
    Detach,
    Reply,
    Report,
}

/// The kinds of record.
#[derive(Clone, Copy, Debug, PartialEq, Eq)]
pub enum Kind {
    Clock,
    Act(ActKind),
    Plug(PlugKind),
    /// The token has done a job.
    Job,
}

/// The first eight bytes of a record. `length` counts the bytes of the payload that follows.
#[derive(Clone, Copy, Debug, PartialEq, Eq)]
pub struct Head {
    pub tick: Tick,
    pub kind: u8,
    pub who: u8,
    pub length: u16,
}

/// What a sound head announces.
#[derive(Clone, Copy, Debug, PartialEq, Eq)]
pub enum Form {
    Clock,
    Act(PortId, Side, ActKind),
    Plug(Plug, PlugKind),
    Job,
}

/// What a line of the script says: a tick, and a move at the panel.
#[derive(Clone, Copy, Debug, PartialEq, Eq)]
pub struct Said {
    pub tick: Tick,
    pub panel: Panel,
}
