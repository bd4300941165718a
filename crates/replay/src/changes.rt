// What a call has changed: every byte of it is printed, and takes the place of the one before.
ghost use Rattle.std.specs.Prelude.{◌≡◌, ◌+◌, ◌<◌, ◌≤◌, length, IfSome};
ghost use Rattle.image.specs.Memory.{memory_size, buffer_room};

use image::memory::{Buffer, Memory};
use std::io;
use std::io::Print;

// What stands at a place becomes this; what has changed is printed.
pub fn settle<R: Print>(
    rt: &R,
    memory: &mut Memory,
    letter: char,
    at: usize,
    after: &[u8],
) -> io::Result<()>
    requires { at + length after.now ≤ memory_size }
{
    let end = at + after.len();
    changes(rt, letter, &memory.bytes[at..end], after)?;
    memory.bytes[at..end].copy_from_slice(after);
    Ok(())
}

// The same, of a buffer.
pub fn settle_buffer<R: Print>(
    rt: &R,
    memory: &mut Memory,
    buffer: Buffer,
    after: &[u8],
) -> io::Result<()>
    requires { length after.now ≤ buffer_room buffer }
{
    settle(rt, memory, letter_of(buffer), buffer.place(), after)
}

fn letter_of(buffer: Buffer) -> char {
    match buffer {
        Buffer::Outbox => 'o',
        Buffer::Kept => 'k',
        Buffer::Signatures => 'g',
        Buffer::Waiting => 'w',
    }
}

// The runs of bytes in which what comes after differs from what was before, behind the letter of the thing; nothing where there are none.
fn changes<R: Print>(rt: &R, letter: char, before: &[u8], after: &[u8]) -> io::Result<()>
    requires { length before.now ≡ length after.now }
{
    let Some(first) = next(before, after, 0, false) else {
        return Ok(());
    };
    print!(rt; " {letter}")?;
    runs(rt, before, after, first)
}

// The runs from a changed byte on.
fn runs<R: Print>(rt: &R, before: &[u8], after: &[u8], first: usize) -> io::Result<()>
    requires { (length before.now ≡ length after.now) × (first < length after.now) }
{
    let mut start = first;
    loop {
        let end = next(before, after, start + 1, true).unwrap_or(after.len());
        run(rt, after, start, end)?;
        let Some(next_start) = next(before, after, end, false) else {
            return Ok(());
        };
        start = next_start;
    }
}

// The first byte from a place on that is the same as before, or that is not.
fn next(before: &[u8], after: &[u8], from: usize, same: bool) -> Option<usize>
    requires { (length before.now ≡ length after.now) × (from ≤ length after.now) }
    ensures { IfSome result (λ i. (from ≤ i) × (i < length after.now)) }
{
    before[from..]
        .iter()
        .zip(&after[from..])
        .position(|(b, a)| (b == a) == same)
        .map(|i| from + i)
}

// One run: its place, and its bytes.
fn run<R: Print>(rt: &R, after: &[u8], start: usize, end: usize) -> io::Result<()>
    requires { end ≤ length after.now }
{
    print!(rt; "@{start}:")?;
    show::hex(rt, after, start, end)
}
