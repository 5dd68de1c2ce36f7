//! What holds of the definitions, as laws: a function's contract is one, and its body is empty.
ghost use Rattle.token_plug.specs.Naming.{RefusalsAreNamed};
ghost use Rattle.token_plug.specs.Ownership.{ApartWhileNoneIsSelected, BarredUntilDetached, RoutedOnceInALife, RoutedToSelected, TwoPortsTwoLives};

/// No life of the token is routed to two ports: before it is routed to another its power goes off, and comes on again `RESET`
/// ticks later at the earliest.
pub fn two_ports_two_lives()
    ensures { TwoPortsTwoLives }
{}

/// No life of the token is routed twice, to whichever ports: between two moments at which it is routed its power goes off, and
/// comes on again `RESET` ticks later at the earliest.
pub fn routed_once_in_a_life()
    ensures { RoutedOnceInALife }
{}

/// The token is routed exactly where it is ready and a port is selected, and to that port.
pub fn routed_to_selected()
    ensures { RoutedToSelected }
{}

/// While nothing is selected the token isn't routed.
pub fn apart_while_none_is_selected()
    ensures { ApartWhileNoneIsSelected }
{}

/// A token that was refused stays so, without power, until it is taken off.
pub fn barred_until_detached()
    ensures { BarredUntilDetached }
{}

/// Each refusal is named: a token that loses its power by a reply is refused by its plan, and the last of the reply's lines in
/// the log names that rule; one that loses it because it stayed silent has the line that says so.
pub fn refusals_are_named()
    ensures { RefusalsAreNamed }
{}
