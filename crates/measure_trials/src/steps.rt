// Steps are counted.
ghost use Rattle.std.specs.Prelude.{◌≡◌, ◌<◌};

use measure_core::Steps;
use std::marker::Brand;
use std::sync::ledger::{Blank, Ledger};

fn steps_of_two_ticks<L: Ledger>(blank: Blank)
    requires name { blank.name ≡ L.name }
    requires parts { blank.parts ≡ L.parts }
    requires some { 0 < blank.parts }
{
    let mut steps: Steps<L> = Steps::new(blank);
    steps.tick();
    steps.tick();
}

#[test]
fn ticks_are_counted(_rt: HostRuntime) {
    steps_of_two_ticks::<Brand>(Blank::new(1));
}
