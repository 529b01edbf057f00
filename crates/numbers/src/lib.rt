// The numbers of a corpus file: seven bits to a byte, lowest group first, the top bit set where more follow.
#![tactic(auto)]

pub mod refusal;

ghost use Rattle.std.specs.Prelude.{◌≡◌, ◌≤◌, ◌<◌, ◌+◌, ◌*◌, ◌%◌, ◌^◌};
ghost use Rattle.numbers.specs.Reader.{as_read};
ghost use Rattle.numbers.specs.Number.{too_big, number};

use refusal::Refusal;

// What a field says, and the place behind it.
#[derive(Clone, Copy, PartialEq, Eq)]
pub struct Got<T> {
    pub value: T,
    pub next: usize,
}

// The low seven bits.
fn group(b: u8) -> u32
    ensures { result ≡ b % 128 }
{
    u32::from(b & 127)
}

// The group put above the i groups that are there.
fn join(value: u32, g: u32, i: usize) -> u32
    requires { (value < 128 ^ i) × (g * 128 ^ i < 4294967296) × (i ≤ 4) }
    ensures { result ≡ value + g * 128 ^ i }
{
    value | (g << (7 * i))
}

// A fifth byte above 15.
#[tactic(auto, unfolding(crate::specs::Number::too_big))]
fn too_big(i: usize, b: u8) -> bool
    ensures { result ≡ too_big i b }
{
    3 < i && 15 < b
}

// The number that opens the bytes.
pub fn read_number(bytes: &[u8]) -> Result<Got<u32>, Refusal>
    ensures { result ≡ as_read (number bytes.now) }
{
    let mut value = 0;
    for (i, &b) in bytes.iter().enumerate() {
        if too_big(i, b) {
            return Err(Refusal::TooBig);
        }
        value = join(value, group(b), i);
        if b < 128 {
            return Ok(Got { value, next: i + 1 });
        }
    }
    Err(Refusal::Cut)
}
