// A generator of bytes.
ghost use Rattle.std.specs.Prelude.{◌≡◌, ◌<◌, ◌^◌, IfOk};
ghost use Rattle.big_script.specs.Generated.{generated, next_number, number_after, byte_given};

use ev_types::NoMemory;
use std::alloc::Global;

/// Each number of the generator is below this one, 2^31.
const MODULUS: u64 = 1 << 31;

/// The number of the generator after a step. Constant cost.
fn next(x: u64) -> u64
    requires { x < 2 ^ 32 }
    ensures next { result ≡ next_number x }
    ensures small { result < 2 ^ 31 }
{
    (x * 1_103_515_245 + 12_345) % MODULUS
}

/// The byte that a number gives. Constant cost.
fn byte_of(x: u64) -> u8
    ensures { result ≡ byte_given x }
{
    (x / 65_536 % 256) as u8
}

/// The next `count` bytes that the generator gives from a number on, and its number behind them. Takes memory for them; linear.
pub fn take_bytes(alloc: Global, count: usize, from: u64) -> Result<(Vec<u8>, u64), NoMemory>
    requires { from < 2 ^ 32 }
    ensures bytes { IfOk result (λ made. made.0.items ≡ generated count from) }
    ensures number { IfOk result (λ made. made.1 ≡ number_after count from) }
    ensures small { IfOk result (λ made. made.1 < 2 ^ 32) }
{
    let mut bytes = Vec::new(alloc);
    bytes.reserve(count)?;
    let mut x = from;
    for i in 0..count {
        x = next(x);
        bytes.push(byte_of(x))?;
    }
    Ok((bytes, x))
}
