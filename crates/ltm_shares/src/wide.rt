//! The one place where numbers of more than 64 bits are multiplied.
ghost use Rattle.std.specs.Prelude.{◌≡◌, ◌<◌, ◌*◌, ◌^◌};

/// The product of two numbers. Each product of this crate that may pass 64 bits is made here, so none passes 127.
#[inline(always)]
pub fn product(a: u128, b: u128) -> u128
    requires { a * b < 2 ^ 127 }
    ensures { result ≡ a * b }
{
    a * b
}
