// The largest sizes of a book, as the definitions of specs/Bounds.antt have them.

// A book has from 1 to so many events.
pub const MAX_EVENTS: u16 = 1_024;

// A book has at most so many rules.
pub const MAX_RULES: u16 = 4_096;

// A limit is from the opposite of this to this, in milliseconds.
pub const MAX_LIMIT: i32 = 100_000_000;
