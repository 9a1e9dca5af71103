// Registers to try questions on.

// Eight registers without blocks: register 0 has one column, register 1 has two, and so on.
pub const WIDENING: [u64; 17] = [8, 0, 1, 0, 2, 0, 3, 0, 4, 0, 5, 0, 6, 0, 7, 0, 8];
