// A block as a part of the lent registers.
ghost use Rattle.std.specs.Prelude.{◌≡◌, ◌*◌, length};

// What stands under one key: so many rows of so many columns, one behind the other.
#[derive(Clone, Copy)]
pub struct Block<'a> {
    pub key: u64,
    pub rows: usize,
    pub columns: usize,
    pub cells: &'a [u64],
    pub ghost shaped: { length cells.now ≡ rows * columns },
}
