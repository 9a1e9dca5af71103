// The example on which the definitions are tried, as numbers.
ghost use Rattle.std.specs.Prelude.{◌≡◌};
ghost use Rattle.registers.specs.Example.{example};

// Sluices (polder, width), polders (level, board) and boards: the registers begin at 1, 23 and 39.
pub fn sluices() -> [u64; 48]
    ensures { result ≡ example }
{
    [
        3, 4, 2, 1, 1, 10, 4, 2, 2, 10, 6, 11, 6, 3, 1, 12, 5, 4, 2, 11, 9, 11, 8, 3, 2, 10, 1, 3,
        7, 11, 2, 3, 7, 5, 7, 12, 1, 2, 8, 2, 1, 7, 1, 1, 8, 2, 1, 0,
    ]
}
