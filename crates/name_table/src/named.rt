// What has a name.
ghost use Rattle.std.specs.Prelude.{◌≡◌};

/// What has a name.
pub trait Named {
    ghost use Rattle.std.specs.Prelude.{ℕ, List};

    ghost name: { Self → List ℕ };

    /// The bytes of the name.
    fn bytes(&self) -> &[u8]
        ensures { result.now ≡ name self.now };
}
