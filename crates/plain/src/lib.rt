// The plain board: the specification of everything above it, and what holds of every use of it.
#![tactic(auto)]

ghost use Rattle.plain.specs.Faithful.{AsPlainIsFaithful};
ghost use Rattle.plain.specs.Flights.{Flights};
ghost use Rattle.plain.specs.Laws.{EveryUseIsLawful};
ghost use Rattle.plain.specs.Sanity.{BoardsStayWhole, RefusalsAscend};

// There is nothing to run here: each function below stands for the theorem in its contract, and the checker asks for the proof.

// The laws of sightings, walks and waits hold at every stop of every use of a plain board.
pub fn every_use_is_lawful()
    ensures { EveryUseIsLawful }
{}

// Whoever answers and leaves what the plain board does keeps these laws, call by call.
pub fn as_plain_is_faithful()
    ensures { AsPlainIsFaithful }
{}

// The plain board answers the worked flights as written down.
pub fn flights_fly()
    ensures { Flights }
{}

// Of several refusals that hold, the caller hears the smallest number.
pub fn refusals_ascend()
    ensures { RefusalsAscend }
{}

// No use cuts the list short, loses a node, or has one in two places.
pub fn boards_stay_whole()
    ensures { BoardsStayWhole }
{}
