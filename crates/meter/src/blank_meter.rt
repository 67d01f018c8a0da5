// Blank: a meter that tells nothing.
ghost use Rattle.std.specs.Prelude.{◌≡◌};
ghost use Rattle.measure.specs.Blank.{blank_measure};
ghost use Rattle.measure.proofs.Blank.{blank_lawful};

use crate::interface::Meter;

#[derive(Clone, Copy)]
pub struct Blank;

impl Meter for Blank {
    type Reading = ();

    ghost scale = { λ _. blank_measure };

    ghost lawful = { λ _. blank_lawful };

    fn empty(&self) -> () {}

    fn single(&self, byte: u8) -> () {}

    fn join(&self, left: &(), right: &()) -> () {}
}
