// The bytes of a sheet, for the code that reads and writes it. The definitions beside it (specs/) are what that code is
// proved against.
#![tactic(auto)]

// The length of the smallest sheet: one step and the trailer.
pub const SHORTEST: usize = 16;

// And of the largest: 16 models of 64 terms, 64 steps and the trailer.
pub const LONGEST: usize = 8792;

// The bytes of a model before its terms: radius and term count.
pub const MODEL_BYTES: usize = 5;

// Where the term count stands among them.
pub const COUNT_AT: usize = 4;

// Up to so many variables keys are short.
pub const MOST_SHORT: u8 = 4;

// The bytes of a term: key and coefficient, where keys are short.
pub const SHORT_TERM_BYTES: usize = 6;

// And where they are long.
pub const LONG_TERM_BYTES: usize = 8;

// What a short key counts: it is the upper half of a key.
pub const SHORT_KEY: u32 = 1 << 16;

// Of a step.
pub const STEP_BYTES: usize = 8;

// Of the trailer.
pub const TRAILER_BYTES: usize = 8;

// What two's complement of 32 bits adds to a negative number.
pub const WORD: i64 = 1 << 32;

// The mark: the last byte but one.
pub const FIRST_MARK: u8 = 0x4D;

// And the last, where keys are short.
pub const SHORT_MARK: u8 = 0x4B;

// And where they are long.
pub const LONG_MARK: u8 = 0x57;
