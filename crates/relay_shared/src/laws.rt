//! What the contracts of the slots, and those of the index, mean together. Each function does
//! nothing: its contract is a law, which the check proves.

ghost use Rattle.relay_shared.specs.IndexLaws.{WhatIsFoundStands, IdsAreGivenOnce, AnIdNamesOne};
ghost use Rattle.relay_shared.specs.Laws.{AnswersReachTheirRequests, NumbersAreGivenOnce};

/// However requests begin, are answered and withdrawn, and answers taken, an answer reaches the
/// session and the request that it is for, or nobody.
pub fn answers_reach_their_requests()
    ensures { AnswersReachTheirRequests }
{}

/// No two requests have the same number, so that no answer is taken for that of another.
pub fn numbers_are_given_once()
    ensures { NumbersAreGivenOnce }
{}

/// However entries come and go, what is found under an id is what was entered under it and hasn't
/// left since.
pub fn what_is_found_stands<C, L>()
    ensures { WhatIsFoundStands C L }
{}

/// No id is given twice, so that none names what comes later.
pub fn ids_are_given_once<C, L>()
    ensures { IdsAreGivenOnce C L }
{}

/// No id names two things.
pub fn an_id_names_one<C, L>()
    ensures { AnIdNamesOne C L }
{}
