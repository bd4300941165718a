// What stands in an image one behind the other: numbers of one type, and plain bytes.
ghost use Rattle.std.specs.Prelude.{◌≡◌, ◌+◌, ◌*◌, ◌≤◌, length};
ghost use Rattle.wire.specs.Overlay.{over};

use std::array;
use wire::Number;

// As many numbers as the array has, from a place on.
pub fn numbers_at<T: Number, const N: usize>(s: &[u8], at: usize) -> [T; N]
    requires { at + T.WIDTH * N ≤ length s.now }
{
    array::from_fn(
        |i| -> T
            requires { at + T.WIDTH * (i + 1) ≤ length s.now }
        { wire::read(s, at + T::WIDTH * i) },
    )
}

// The numbers, from a place on.
pub fn put_numbers<T: Number>(s: &mut [u8], at: usize, numbers: &[T])
    requires { at + T.WIDTH * length numbers.now ≤ length s.old }
{
    for (i, number) in numbers.iter().enumerate() {
        wire::write(s, at + T::WIDTH * i, *number);
    }
}

// As many bytes as the array has, from a place on.
pub fn bytes_at<const N: usize>(s: &[u8], at: usize) -> [u8; N]
    requires { at + N ≤ length s.now }
{
    let mut bytes = [0; N];
    bytes.copy_from_slice(&s[at..at + N]);
    bytes
}

// The bytes, from a place on.
#[tactic(auto, using(wire::proofs::Overlay::lent_whole))]
pub fn put_bytes(s: &mut [u8], at: usize, bytes: &[u8])
    requires { at + length bytes.now ≤ length s.old }
    ensures { s.new ≡ over s.old at bytes.now }
{
    s[at..at + bytes.len()].copy_from_slice(bytes);
}
