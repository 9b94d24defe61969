// Boards that are wrong in one way each, and the law that each of them breaks: what the laws are worth.
#![tactic(auto)]

ghost use Rattle.wrong_boards.specs.Breaks.{WrongBoardsBreakLaws};

// Each of these boards has a use after which a law does not hold.
pub fn wrong_boards_break_laws()
    ensures { WrongBoardsBreakLaws }
{}
