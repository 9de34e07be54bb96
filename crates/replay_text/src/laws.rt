//! Laws of the lines of a replay. The functions have no body: the contract of each is a law.

ghost use Rattle.replay_text.specs.Laws.{AnswersAreTold, RepliesAreLines, TextsAreErrors};

/// The text of replies that a client is sent has the client's name before each of its lines.
pub fn replies_are_lines()
    ensures { RepliesAreLines }
{}

/// The lines of an answer to an offer are those of what the rules say.
pub fn answers_are_told()
    ensures { AnswersAreTold }
{}

/// A refusal has the text that the program writes on its error output.
pub fn texts_are_errors()
    ensures { TextsAreErrors }
{}
