//! Laws of options and of numbers.
ghost use Rattle.std.specs.Prelude.{◌≡◌};
ghost use Rattle.exec_words.specs.declared.number.TheConstants.{MOST_WORKERS, MOST_WINDOW, MOST_GENERATED, MOST_DIGITS};
ghost use Rattle.exec_words.specs.declared.words.TheConstants.{DEFAULT_WORKERS, DEFAULT_WINDOW};
ghost use Rattle.exec_words.specs.Laws.{SpellingsAgree, PlacesAgree};

/// An option says the same with its value in the next word and behind `=`, and it says the same
/// before a name and behind it. The call does nothing. Its contract is the law.
pub fn options_stand_in_any_place()
    ensures spellings { SpellingsAgree }
    ensures places { PlacesAgree }
{}

/// There are at most 16 workers, and 4 where no word says their number; at most 256 records are
/// worked on at once, and 64 where no word says how many; at most 1,000,000 are generated; and a
/// number has at most nine digits. The call does nothing. Its contract is the law.
pub fn limits_of_words()
    ensures workers { MOST_WORKERS ≡ 16 }
    ensures default_workers { DEFAULT_WORKERS ≡ 4 }
    ensures window { MOST_WINDOW ≡ 256 }
    ensures default_window { DEFAULT_WINDOW ≡ 64 }
    ensures generated { MOST_GENERATED ≡ 1_000_000 }
    ensures digits { MOST_DIGITS ≡ 9 }
{}
