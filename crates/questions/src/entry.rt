// Checking registers and the signs of a question together.
ghost use Rattle.std.specs.Prelude.{◌≡◌, None};
ghost use Rattle.registers.specs.Layout.{columns_of};
ghost use Rattle.registers.specs.Refusals.{refusal};
ghost use Rattle.questions.specs.Meaning.{Means, refusal_in};
ghost use Rattle.questions.specs.Reading.{widths_of};
ghost use Rattle.questions.specs.Refusals.{answered, refusal_of};

use crate::reading::read;
use crate::refusals::Refusal;
use registers::checked;
use registers::layout::{Directory, MAX_REGISTERS};

// How many columns each register has, in room for eight.
pub fn widths(directory: &Directory) -> [usize; MAX_REGISTERS]
    ensures { result ≡ widths_of directory.now }
{
    directory.sections.map(|section| section.columns)
}

// The refusal of registers or of signs, if they are refused: that of the registers is told first.
pub fn check(base: &[u64], signs: &[u64]) -> Result<(), Refusal>
    ensures value { result ≡ answered (refusal_of base.now signs.now) tt }
    ensures means { refusal base.now ≡ None → Means (columns_of base.now) signs.now (refusal_in result) }
{
    let registers = checked(base)?;
    let widths = widths(&registers.directory);
    read(&widths[..registers.directory.count], signs)?;
    Ok(())
}
