/// The first number that no change has.
pub const END: u64 = 281474976710656;
