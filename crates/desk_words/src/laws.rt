//! Laws of the words, each the contract of a function that does nothing.
ghost use Rattle.desk_words.specs.Laws.{CommandIsUnique, PartsSayTheCommand, OrderIsFree, TwiceIsUsage, EmptyIsUsage, MissingIsUsage, FlagWithValueIsUsage, UnknownIsUsage, HelpIsUsage, EachLineIsOfParts};

/// Words are of one command at most.
pub fn command_is_unique()
    ensures { CommandIsUnique }
{}

/// The command of the words is the one that their parts say: each option by its values, each flag by its uses, and the other
/// words, those after `--` among them.
pub fn parts_say_the_command()
    ensures { PartsSayTheCommand }
{}

/// Options and flags may stand in any order and anywhere among the other words, and `--level=2` means what `--level 2` means.
pub fn order_of_options_is_free()
    ensures { OrderIsFree }
{}

/// An option or a flag that is given twice is usage.
pub fn option_twice_is_usage()
    ensures { TwiceIsUsage }
{}

/// An option with an empty value is usage.
pub fn empty_value_is_usage()
    ensures { EmptyIsUsage }
{}

/// Each line of a command is one of a word and of parts that say the command: options and flags that it takes, each option
/// with a value and no flag with one, words that begin with no `-` or are `-`, and words after `--`. All other lines are usage.
pub fn each_line_is_of_parts()
    ensures { EachLineIsOfParts }
{}

/// An option without a value is usage: one at the end, one before a word that begins with `--`, or one before a word that
/// begins with `-` and is longer.
pub fn missing_value_is_usage()
    ensures { MissingIsUsage }
{}

/// A flag with a value is usage.
pub fn flag_with_value_is_usage()
    ensures { FlagWithValueIsUsage }
{}

/// A name that the command does not take is usage, alone or with a value.
pub fn unknown_name_is_usage()
    ensures { UnknownIsUsage }
{}

/// `--help` and `--version` are usage.
pub fn help_is_usage()
    ensures { HelpIsUsage }
{}
