// What the definitions imply, each law the contract of a function that does nothing.
ghost use Rattle.vortex_table_types.specs.Laws.{AnswerIsItsRows, ChosenAscend, ChosenExactly, ChosenRowsAreFull, EachQuestionHasAnAnswer, NoRowMissing, OrderedAnswerIsFirstRows, OrderedAnswersAgree, SplitsAreApart, WithoutLimit};

/// The list of chosen rows ascends by place, so no place stands in it twice.
pub fn chosen_ascend()
    ensures { ChosenAscend }
{}

/// A row of the table has its place in the list exactly where it is chosen.
pub fn chosen_exactly()
    ensures { ChosenExactly }
{}

/// Two answers to one ordered question, joined, are one list.
pub fn ordered_answers_agree()
    ensures { OrderedAnswersAgree }
{}

/// Without a limit each batch has all chosen rows of its split.
pub fn without_limit()
    ensures { WithoutLimit }
{}

/// A row lies in one split of a table at most.
pub fn splits_are_apart()
    ensures { SplitsAreApart }
{}

/// Without a limit each chosen row lies in the split of some batch.
pub fn no_row_missing()
    ensures { NoRowMissing }
{}

/// Each question that a request asks of a table has an answer, whatever its limit and its order.
pub fn each_question_has_an_answer()
    ensures { EachQuestionHasAnAnswer }
{}

/// Where every name is known, each chosen row has a value for each projected type.
pub fn chosen_rows_are_full()
    ensures { ChosenRowsAreFull }
{}

/// The batches of an answer, read row by row, are the chosen rows that they stand for.
pub fn answer_is_its_rows()
    ensures { AnswerIsItsRows }
{}

/// The batches of an ordered answer, read row by row, are the first chosen rows, up to the limit.
pub fn ordered_answer_is_first_rows()
    ensures { OrderedAnswerIsFirstRows }
{}
