// Registers that are all there in a slice of numbers, and each of them as a part of it.
ghost use Rattle.std.specs.Prelude.{◌≡◌, true, None};
ghost use Rattle.registers.specs.Refusals.{misfit, register_fits};
ghost use Rattle.registers.specs.Survey.{directory_of, section_at};

use crate::layout::{Directory, Section};

// All registers of a slice, and where they stand: what a survey of the slice gives.
#[derive(Clone, Copy)]
pub struct Registers<'a> {
    pub base: &'a [u64],
    pub directory: Directory,
    pub ghost fits: { misfit base.now ≡ None },
    pub ghost surveyed: { directory ≡ directory_of base.now },
}

// One register, and where it stands.
#[derive(Clone, Copy)]
pub(crate) struct Register<'a> {
    pub(crate) base: &'a [u64],
    pub(crate) section: Section,
    ghost fits: { register_fits base.now section.place ≡ true },
    ghost section_is: { section ≡ section_at base.now section.place section.first },
}
