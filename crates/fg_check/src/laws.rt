//! Laws of what a text of cases comes to.
ghost use Rattle.fg_check.specs.Accepted.{ProvedTextsAreAccepted};
ghost use Rattle.fg_check.specs.Laws.{OneCheck, OneListOfAnswers, OneText, OneTold};

/// Bytes have one list of cases and one ending.
pub fn one_check()
    ensures { OneCheck }
{}

/// Cases have one list of answers and one text.
pub fn one_text()
    ensures answers { OneListOfAnswers }
    ensures text { OneText }
{}

/// One thing is told of an ending and answers.
pub fn one_told()
    ensures { OneTold }
{}

/// The text of cases that all are judged `Yes` is accepted, where it is no longer than the limit.
pub fn proved_texts_are_accepted()
    ensures { ProvedTextsAreAccepted }
{
    one_check();
    one_text();
    one_told();
}
