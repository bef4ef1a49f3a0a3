// Two names in one row of bytes.
ghost use Rattle.std.specs.Prelude.{◌≡◌};
ghost use Rattle.sheet_merge.specs.Packed.{IsNamePair, first_of, second_of};

/// The first of two names in one.
pub fn first_name(pair: &[u8]) -> &[u8]
    requires { IsNamePair pair.now }
    ensures { result.now ≡ first_of pair.now }
{
    match pair {
        [n, names @ ..] => &names[..*n as usize],
        [] => pair,
    }
}

/// The second of two names in one.
pub fn second_name(pair: &[u8]) -> &[u8]
    requires { IsNamePair pair.now }
    ensures { result.now ≡ second_of pair.now }
{
    match pair {
        [n, names @ ..] => &names[*n as usize..],
        [] => pair,
    }
}
