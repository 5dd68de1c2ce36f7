//! One way, as laws on what a replay writes: each function's contract is one, and its body is empty.
ghost use Rattle.kvm_program.specs.Console.{ConsoleIsItsOrders};
ghost use Rattle.kvm_program.specs.OneWay.{ConsoleGetsNoActs, LogGetsNoActs, OthersLeaveTranscript, SameViewSameTranscript};

/// What the keyboard, the mouse and the token are told over a schedule, but for the token's jobs, is what they are told
/// over it without all acts of all computers: nothing goes from a computer to them but the jobs of the one to which the
/// token is routed.
#[tactic(auto, using(crate::proofs::OneWay::console_gets_no_acts))]
pub fn console_gets_no_acts()
    ensures { ConsoleGetsNoActs }
{}

/// What the log says over a schedule is what it says over it without all acts of all computers.
#[tactic(auto, using(crate::proofs::OneWay::log_gets_no_acts))]
pub fn log_gets_no_acts()
    ensures { LogGetsNoActs }
{}

/// Two schedules in which the same concerns a port give its computer the same transcript, byte for byte.
#[tactic(auto, using(crate::proofs::OneWay::same_view_same_transcript))]
pub fn same_view_same_transcript()
    ensures { SameViewSameTranscript }
{}

/// Acts of other computers may be put into a schedule, taken out of it or exchanged: a computer's transcript stays as it
/// was, byte for byte.
#[tactic(auto, using(crate::proofs::OneWay::others_leave_transcript))]
pub fn others_leave_transcript()
    ensures { OthersLeaveTranscript }
{}

/// What the keyboard, the mouse and the token are told over a schedule is the text of its orders with their ticks, one after
/// another: what is proved of the orders is so of the console's lines.
#[tactic(auto, using(crate::proofs::Orders::console_is_its_orders))]
pub fn console_is_its_orders()
    ensures { ConsoleIsItsOrders }
{}
