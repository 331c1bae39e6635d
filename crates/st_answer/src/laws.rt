//! Laws of the definitions. These functions do nothing; what they ensure is what counts.

ghost use Rattle.st_answer.specs.Laws.{OneAnswer, OneReply};

/// A file set has at most one answer to a query at one time of the clock.
pub fn one_answer()
    ensures { OneAnswer }
{}

/// A file set has at most one reply to a question: one list of records that the limits leave of its
/// answer.
pub fn one_reply()
    ensures { OneReply }
{}
