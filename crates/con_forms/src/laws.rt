//! What is answered has its form, and a legal history is one of a report.

ghost use Rattle.con_forms.specs.Laws.{AllAreTold, AnswersHaveForms, AreSaid, EachIsTold, HistoriesFit};

/// Each event is answered by its form, and Paint by a picture.
pub fn an_answer_has_its_form()
    ensures { AnswersHaveForms }
{}

/// The lines of a legal history, up to a picture without a length, are those of a history of a report; and they are all of it where
/// there are as many lengths as pictures.
pub fn a_legal_history_is_told()
    ensures fits { HistoriesFit }
    ensures said { AreSaid }
    ensures all { AllAreTold }
    ensures each { EachIsTold }
{}
