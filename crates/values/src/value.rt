// Values: signed 32-bit numbers, and how they are sent. An object that may hold nothing holds an `Option<i32>`.
ghost use Rattle.std.specs.Prelude.{◌≡◌};
ghost use Rattle.values.specs.Value.{signed, zigzag as zigzag_of};

// Both are functions: `i32` and `u32` are std's types and `From` is std's trait, so no crate but std can join them.

// The value that a number stands for: v where it is 2v, and below zero where it is -2v - 1.
pub fn signed_of(n: u32) -> i32
    ensures { result ≡ signed n }
{
    let half = (n >> 1) as i32;
    if n & 1 == 0 { half } else { -1 - half }
}

// The number that a value is sent as.
pub fn zigzag(v: i32) -> u32
    ensures { result ≡ zigzag_of v }
{
    if v < 0 {
        let below = -1 - v;
        below as u32 * 2 + 1
    } else {
        v as u32 * 2
    }
}
