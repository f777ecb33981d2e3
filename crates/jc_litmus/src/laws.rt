//! Laws of the words of programs and their answers. Each function does nothing: its contract is the law.
ghost use Rattle.jc_litmus.specs.Playing.{WitnessesPlay};
ghost use Rattle.jc_litmus.specs.ReplyTexts.{RepliesAreOfKind, RepliesAreTold, RepliesOfTable, RepliesReadBack, SilenceIsTold};

use jc_text::laws::words_read_back;

/// The text of a call in an outcome determines its reply: two replies that the call can have differ in their texts, and neither
/// text is that of a call that is never answered. The word of a reply in an expectation is read as that reply.
pub fn replies_are_told()
    ensures told { RepliesAreTold }
    ensures silence { SilenceIsTold }
    ensures back { RepliesReadBack }
{
    words_read_back();
}

/// An expectation's word is read as a reply that the call can have, and as no other; and a call can have each reply that the operation
/// table of `jc_model` gives.
pub fn replies_are_of_the_table()
    ensures read { RepliesAreOfKind }
    ensures table { RepliesOfTable }
{}

/// The script under an outcome, read without its marks, plays the outcome's schedule: no line of it has a fault, and what the events of
/// a line show, its call's reply among them, is what those of the move have shown. So before its audit the world is that of the outcome.
/// The cache's shape is to be within its limits, as that of each program that is explored.
pub fn witnesses_play()
    ensures { WitnessesPlay }
{}
