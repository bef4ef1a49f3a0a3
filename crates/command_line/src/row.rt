// A row of the table of commands.
use std::marker::Model;

/// What a command takes.
#[derive(Drop)]
pub struct Row {
    /// The options that must be given, by their long names.
    pub needed: &'static [&'static str],
    /// The options that may be given.
    pub optional: &'static [&'static str],
    /// The flags that may be given, which have no value.
    pub flags: &'static [&'static str],
    /// What the other words are called.
    pub other: &'static str,
    /// How few other words there may be.
    pub least: usize,
    /// How many other words there may be.
    pub most: usize,
}

impl Model for Row {
    ghost use Rattle.std.specs.Prelude.{map};
    ghost use Rattle.command_line.specs.Takes.{Takes, IsSound};

    ghost Value = { Takes };

    ghost view = { λ r. record { needed = map (λ n. n.now) r.needed.now; optional = map (λ n. n.now) r.optional.now; flags = map (λ n. n.now) r.flags.now; other = r.other.now; least = r.least; most = r.most } };

    ghost invariant = { λ r. IsSound (record { needed = map (λ n. n.now) r.needed.now; optional = map (λ n. n.now) r.optional.now; flags = map (λ n. n.now) r.flags.now; other = r.other.now; least = r.least; most = r.most }) };
}
