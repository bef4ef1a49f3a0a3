//! Laws of words, whatever a command takes, each the contract of a function that does nothing.
ghost use Rattle.command_line.specs.Laws.{WordsGiveWhatPartsGive, EachLineIsOfParts, TwiceIsRefused, EmptyIsRefused, MissingIsRefused, FlagWithValueIsRefused, UnknownIsRefused};

/// Words give what their parts give: each option its values, each flag its uses, and the other words, those after `--` among
/// them.
pub fn words_give_what_parts_give()
    ensures { WordsGiveWhatPartsGive }
{}

/// Each line that gives something is one of parts: options and flags that the command takes, each option with a value and
/// no flag with one, words that begin with no `-` or are `-`, and words after `--`. All other lines are refused.
#[tactic(auto, using(crate::proofs::Lines::each_line_is_of_parts))]
pub fn each_line_is_of_parts()
    ensures { EachLineIsOfParts }
{}

/// An option or a flag that is given twice is refused.
#[tactic(auto, using(crate::proofs::Lines::twice_is_refused))]
pub fn twice_is_refused()
    ensures { TwiceIsRefused }
{}

/// An option with an empty value is refused.
#[tactic(auto, using(crate::proofs::Lines::empty_is_refused))]
pub fn empty_is_refused()
    ensures { EmptyIsRefused }
{}

/// An option without a value is refused: one at the end, one before a word that begins with `--`, or one before a word that
/// begins with `-` and is longer.
#[tactic(auto, using(crate::proofs::Lines::missing_is_refused))]
pub fn missing_is_refused()
    ensures { MissingIsRefused }
{}

/// A flag with a value is refused.
#[tactic(auto, using(crate::proofs::Lines::flag_with_value_is_refused))]
pub fn flag_with_value_is_refused()
    ensures { FlagWithValueIsRefused }
{}

/// A name that the command does not take is refused, alone or with a value.
#[tactic(auto, using(crate::proofs::Lines::unknown_is_refused))]
pub fn unknown_is_refused()
    ensures { UnknownIsRefused }
{}
