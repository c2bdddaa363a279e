// The rule of the words, and what each step tells. These types are for the proofs alone.
use crate::views::View;
use atomic_table::{Join, Play, Split, TableRule};

pub struct BookRule;

impl TableRule<(), View, ()> for BookRule {
    ghost use Rattle.pipes_split.specs.Views.{first_view};
    ghost use Rattle.pipes_split.specs.Rule.{SplitRule};

    ghost holds = { λ _. SplitRule };

    ghost first = { λ _. first_view };
}

pub struct Raise;

impl Play<(), View> for Raise {
    ghost use Rattle.pipes_split.specs.AfterSteps.{after_raise};

    ghost then = { after_raise };
}

pub struct Close;

impl Play<(), View> for Close {
    ghost use Rattle.pipes_split.specs.AfterSteps.{after_close};

    ghost then = { after_close };
}

pub struct Look;

impl Play<(), View> for Look {
    ghost use Rattle.pipes_split.specs.AfterSteps.{after_look};

    ghost then = { after_look };
}

pub struct Halt;

impl Play<(), View> for Halt {
    ghost use Rattle.pipes_split.specs.AfterSteps.{after_halt};

    ghost then = { after_halt };
}

pub struct Halted;

impl Play<(), View> for Halted {
    ghost use Rattle.pipes_split.specs.AfterSteps.{after_halted};

    ghost then = { after_halted };
}

// A new seat that knows nothing.
pub struct Blank;

impl Split<View> for Blank {
    ghost use Rattle.pipes_split.specs.Views.{blank};

    ghost left = { λ v. v };

    ghost right = { λ _. blank };
}

// A new seat with a note of what this one knows.
pub struct Note;

impl Split<View> for Note {
    ghost use Rattle.pipes_split.specs.Views.{note_of};

    ghost left = { λ v. v };

    ghost right = { note_of };
}

impl Join<View> for Note {
    ghost use Rattle.pipes_split.specs.Views.{joined, blank};

    ghost both = { joined };

    ghost spent = { blank };
}

// The look that reads the note.
pub struct Read;

impl Play<(), View> for Read {
    ghost use Rattle.pipes_split.specs.AfterSteps.{after_read};

    ghost then = { after_read };
}
