//! What holds of the grammar.
ghost use Rattle.command_line.specs.Words.{WordsSayOneRequest};

/// Words say at most one request, and the definition that computes finds it.
pub fn words_say_one_request()
    ensures { WordsSayOneRequest }
{}
