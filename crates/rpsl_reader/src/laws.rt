//! Laws over the definitions alone, which the readers above rest on.
ghost use Rattle.rpsl_reader.specs.Laws.{AnyCutting, GivenIsWhole, GivenSoFar, PiecesJoin};
ghost use Rattle.rpsl_reader.specs.Laws.{StaysBounded, WantedJoins};

/// Two pieces, one after the other, are one piece.
pub fn pieces_join()
    ensures { PiecesJoin }
{}

/// What is wanted of some items is what is wanted of each part of them.
#[tactic(auto, using(crate::proofs::Pieces::wanted_joins))]
pub fn wanted_joins()
    ensures { WantedJoins }
{}

/// What the pieces of a text give, and then its end, is what the whole text says.
pub fn given_is_whole()
    ensures { GivenIsWhole }
{}

/// However a text is cut, its pieces give what the whole text says.
pub fn any_cutting()
    ensures { AnyCutting }
{}

/// After each piece of a text, what was given so far is the items of the groups of lines that have
/// ended by then: those that a blank line follows, among the lines that a line feed has ended.
pub fn given_so_far()
    ensures { GivenSoFar }
{}

/// What is kept between two bytes of a text is bounded.
pub fn stays_bounded()
    ensures { StaysBounded }
{}
