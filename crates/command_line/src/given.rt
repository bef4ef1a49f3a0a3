// What words give to a command.
ghost use Rattle.std.specs.Prelude.{◌≡◌, IfOk, Err, map, string_bytes};
ghost use Rattle.command_line.specs.Given.{Values, AreGiven, values_held};

use crate::allowed::allows;
use crate::fault::WordsFault;
use crate::parser::entries;
use crate::row::Row;
use clap::ArgMatches;
use std::alloc::Global;

/// What words give to a command: values for each name.
#[derive(Drop)]
pub struct Given<'a> {
    entries: ArgMatches<'a>,
}

impl<'a> Given<'a> {
    /// What the words give to a command that takes this. `Usage` comes exactly where they give nothing, unless memory runs
    /// out; `Memory` may come at any words.
    pub fn read(alloc: Global, row: &Row, words: &'a [String]) -> Result<Given<'a>, WordsFault>
        ensures ok { IfOk result (λ given.
            AreGiven row.now (map string_bytes words.entry.now) (values_held given)) }
        ensures usage { result ≡ Err WordsFault.Usage → (values : Values) →
            AreGiven row.now (map string_bytes words.entry.now) values → ⊥ }
    {
        let given = Given {
            entries: entries(alloc, row, words)?,
        };
        if !allows(row, &given) {
            return Err(WordsFault::Usage);
        }
        Ok(given)
    }

    /// The values of a name, in their order: of an option its values, of a flag a text for each use, and of what the other
    /// words are called these words.
    pub fn values(&self, name: &str) -> &[&'a str]
        ensures { map (λ v. v.now) result.now ≡ values_held self.now name.now }
    {
        self.entries.get_strs(name).unwrap_or_default()
    }
}
