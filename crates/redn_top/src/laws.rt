//! Laws on what commands print. A call of one does nothing.

ghost use Rattle.redn_top.specs.Laws.{AcceptedWordsAreMessages, ListedFilesComeBack, QuietRunsHaveEnded};

use redn_disasm::{a_listing_means_its_image, a_text_has_one_meaning};
use redn_image::an_image_has_one_spelling;
use redn_sched::made_runs_end_whole;

/// Message words that are accepted give each chain of a program no message, or one of its length.
pub fn accepted_words_are_messages()
    ensures { AcceptedWordsAreMessages }
{}

/// `end quiet` is printed of a compiled image only where each chain that got a message has replied
/// or faulted.
pub fn quiet_runs_have_ended()
    ensures { QuietRunsHaveEnded }
{
    made_runs_end_whole();
}

/// A file that holds an image, as `compile` writes it, is listed by `disasm`, and `assemble` writes
/// it again byte for byte.
pub fn listed_files_come_back()
    ensures { ListedFilesComeBack }
{
    an_image_has_one_spelling();
    a_text_has_one_meaning();
    a_listing_means_its_image();
}
