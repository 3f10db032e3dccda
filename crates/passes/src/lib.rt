// One pass over the bytes of a symbol: what it takes. Each byte of a sum is made in one go and stored once.
#![tactic(auto)]

use fixed_lists::FixedList;

// How many sources a pass takes at most: for each number of them there is a loop of its own.
pub const MOST_SOURCES: usize = 5;

// The symbols that a pass adds to what it begins with, in this order.
pub type Sources = FixedList<usize, MOST_SOURCES>;
