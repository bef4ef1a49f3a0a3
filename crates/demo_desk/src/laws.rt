// A law, the contract of a function that does nothing.
ghost use Rattle.demo_desk.specs.Demo.{TextsAreRead};

/// No text of any seed is refused: the judgements are read, and then each of the eight runs beside them and after what the
/// texts before it used.
pub fn texts_are_read()
    ensures { TextsAreRead }
{}
