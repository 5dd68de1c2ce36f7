//! What holds of the definitions, as laws: a function's contract is one, and its body is empty.
ghost use Rattle.console_plug.specs.Naming.{RefusalsAreNamed};

/// Each refusal is named: a peripheral that loses its power by a reply is refused by its plan, and the last of the reply's
/// lines in the log names that rule; one that loses it because it stayed silent has the line that says so.
pub fn refusals_are_named()
    ensures { RefusalsAreNamed }
{}
