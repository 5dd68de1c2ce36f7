//! What doesn't depend on what computers do, as laws: each function's contract is one, and its body is empty.
ghost use Rattle.switch_core.specs.Commuting.{ActsCommute, StandsForSame};
ghost use Rattle.switch_core.specs.Independence.{ConsoleIgnoresActs};
ghost use Rattle.switch_core.specs.Ownership.{HeardByOwnerAlone, JobsAreTheOwners, LifeIsRoutedOnce, NoJobsUnselected};
ghost use Rattle.switch_core.specs.Ownership.{JobsOfOneLife, JobsOfTwoLives, JobsOfTwoSelections};
ghost use Rattle.switch_core.specs.Stamped.{LifeIsOnePorts, LivesAreApart};

/// The log, and what the keyboard and the mouse are told, tell nothing of what computers do: over a run and over it
/// without all their acts they are the same.
pub fn console_ignores_acts()
    ensures { ConsoleIgnoresActs }
{}

/// The switch knows its schedule only by what happened at the front and by the views of its ports: where it stands for one, it
/// stands for each that says the same by these.
pub fn same_words_same_switch()
    ensures { StandsForSame }
{}

/// Acts of different computers commute: a schedule in which two of them, next to each other, are exchanged has the same at the
/// front and the same view for each port.
pub fn acts_commute()
    ensures { ActsCommute }
{}

/// That a job is done is heard by the token's owner alone: the port to which it is routed, which is the selected one, in the
/// life in which the job was ordered.
pub fn heard_by_owner_alone()
    ensures { HeardByOwnerAlone }
{}

/// No life of the token is routed to two ports.
pub fn life_is_routed_once()
    ensures { LifeIsRoutedOnce }
{}

/// An act makes a job for the token only at the port to which the token is routed, which is the selected one, and in the
/// token's present life.
pub fn jobs_are_the_owners()
    ensures { JobsAreTheOwners }
{}

/// While its port is not the selected one, as while none is, no act makes a job; nor does any while the switch is not alive.
pub fn no_jobs_unselected()
    ensures { NoJobsUnselected }
{}

/// Jobs of one life of the token are one port's, and made in one selection.
pub fn jobs_of_one_life()
    ensures { JobsOfOneLife }
{}

/// Jobs of two lives are apart: between the acts that make them the token's power goes off, and comes on again `RESET` ticks
/// later at the earliest.
pub fn jobs_of_two_lives()
    ensures { JobsOfTwoLives }
{}

/// Jobs of two ports, or made in two selections, are of two lives, and so apart.
pub fn jobs_of_two_selections()
    ensures { JobsOfTwoSelections }
{}

/// Jobs of two lives of the token are apart in what the console is told: between them there stands an OFF of the token, and of
/// its ONs and OFFs next an ON, `RESET` ticks later at the earliest.
pub fn lives_are_apart()
    ensures { LivesAreApart }
{}

/// Jobs of one life of the token in what the console is told are one port's: acts of that port made them, in one selection.
pub fn life_is_one_ports()
    ensures { LifeIsOnePorts }
{}
