// What a script works on, in one array of bytes: the images of node, sender and contract, and behind them the buffers, each with room for
// its longest.
ghost use Rattle.std.specs.Prelude.{◌≡◌, ◌+◌, ◌≤◌, cond, eqb, leb, length, replicate};
ghost use Rattle.image.specs.Memory.{memory_size, room_of, buffer_of, place_of, buffer_room, no_lengths, resized_to, Within};
ghost use Rattle.wire.specs.Overlay.{over};

use crate::numbers::{bytes_at, put_bytes};

// The room of each buffer.
pub const OUTBOX_ROOM: usize = 8192;

pub const KEPT_ROOM: usize = 4096;

pub const SIGNATURES_ROOM: usize = 8192;

pub const WAITING_ROOM: usize = 40960;

// Where each image and each buffer begins.
pub const NODE_AT: usize = 0;

pub const SENDER_AT: usize = NODE_AT + crate::NODE;

pub const CONTRACT_AT: usize = SENDER_AT + crate::SENDER;

pub const OUTBOX_AT: usize = CONTRACT_AT + crate::CONTRACT;

pub const KEPT_AT: usize = OUTBOX_AT + OUTBOX_ROOM;

pub const SIGNATURES_AT: usize = KEPT_AT + KEPT_ROOM;

pub const WAITING_AT: usize = SIGNATURES_AT + SIGNATURES_ROOM;

pub const SIZE: usize = WAITING_AT + WAITING_ROOM;

// The buffers, in the order in which they lie.
#[derive(Clone, Copy)]
pub enum Buffer {
    Outbox,
    Kept,
    Signatures,
    Waiting,
}

impl From<u8> for Buffer {
    ghost from_gives = { λ letter buffer. buffer ≡ buffer_of letter };

    // The buffer of a letter: o, k and g; of every other, that of the waiting reports.
    fn from(letter: u8) -> Buffer {
        match letter {
            b'o' => Buffer::Outbox,
            b'k' => Buffer::Kept,
            b'g' => Buffer::Signatures,
            _ => Buffer::Waiting,
        }
    }
}

impl Buffer {
    // Where it begins.
    pub fn place(self) -> usize
        ensures within { result + buffer_room self ≤ memory_size }
        ensures there { result ≡ place_of self }
    {
        match self {
            Buffer::Outbox => OUTBOX_AT,
            Buffer::Kept => KEPT_AT,
            Buffer::Signatures => SIGNATURES_AT,
            Buffer::Waiting => WAITING_AT,
        }
    }

    // How long it can be.
    pub fn room(self) -> usize
        ensures { result ≡ buffer_room self }
    {
        match self {
            Buffer::Outbox => OUTBOX_ROOM,
            Buffer::Kept => KEPT_ROOM,
            Buffer::Signatures => SIGNATURES_ROOM,
            Buffer::Waiting => WAITING_ROOM,
        }
    }
}

// How long each buffer is.
#[derive(Clone, Copy, Default)]
pub struct Lengths {
    pub outbox: usize,
    pub kept: usize,
    pub signatures: usize,
    pub waiting: usize,
}

impl Lengths {
    // With that of one buffer changed.
    pub fn resized(self, buffer: Buffer, n: usize) -> Lengths
        requires { Within self × (n ≤ buffer_room buffer) }
        ensures within { Within result }
        ensures changed { result ≡ resized_to self buffer n }
    {
        let mut after = self;
        match buffer {
            Buffer::Outbox => after.outbox = n,
            Buffer::Kept => after.kept = n,
            Buffer::Signatures => after.signatures = n,
            Buffer::Waiting => after.waiting = n,
        }
        after
    }
}

// Where the buffer of a letter begins.
pub fn place(letter: u8) -> usize
    ensures { result + room_of letter ≤ memory_size }
{
    Buffer::from(letter).place()
}

// How long the buffer of a letter can be.
pub fn room(letter: u8) -> usize
    ensures { result ≡ room_of letter }
{
    Buffer::from(letter).room()
}

// The lengths with that of one buffer changed, by its letter.
pub fn resized(lengths: Lengths, letter: u8, n: usize) -> Lengths
    requires { Within lengths × (n ≤ room_of letter) }
    ensures { Within result }
{
    lengths.resized(Buffer::from(letter), n)
}

// Each buffer with all of its room, to be lent as long as it is.
pub fn outbox_in(bytes: &[u8]) -> [u8; OUTBOX_ROOM]
    requires { memory_size ≤ length bytes.now }
{
    bytes_at(bytes, OUTBOX_AT)
}

pub fn kept_in(bytes: &[u8]) -> [u8; KEPT_ROOM]
    requires { memory_size ≤ length bytes.now }
{
    bytes_at(bytes, KEPT_AT)
}

pub fn signatures_in(bytes: &[u8]) -> [u8; SIGNATURES_ROOM]
    requires { memory_size ≤ length bytes.now }
{
    bytes_at(bytes, SIGNATURES_AT)
}

pub fn waiting_in(bytes: &[u8]) -> [u8; WAITING_ROOM]
    requires { memory_size ≤ length bytes.now }
{
    bytes_at(bytes, WAITING_AT)
}

// Writes an image of so many bytes at its place; false where there are more bytes, or fewer.
pub fn put(bytes: &mut [u8], at: usize, size: usize, image: &[u8]) -> bool
    requires { at + size ≤ length bytes.old }
    ensures fits { result ≡ eqb (length image.now) size }
    ensures laid { bytes.new ≡ cond result (over bytes.old at image.now) bytes.old }
{
    if image.len() != size {
        return false;
    }
    put_bytes(bytes, at, image);
    true
}

// The bytes, and how long each buffer among them is. It is large: lend it, and do not pass it by value.
#[derive(Drop)]
pub struct Memory {
    pub bytes: [u8; SIZE],
    lengths: Lengths,
    ghost within: { Within lengths },
}

impl Memory {
    // Images of zero bytes, and empty buffers.
    pub fn new() -> Self
        ensures zeros { result.bytes ≡ replicate memory_size 0 }
        ensures empty { result.lengths ≡ no_lengths }
    {
        Memory {
            bytes: [0; SIZE],
            lengths: Lengths::default(),
        }
    }

    // The bytes of a buffer, as long as it is.
    pub fn buffer(&self, buffer: Buffer) -> &[u8]
        ensures { length result.now ≤ buffer_room buffer }
    {
        let place = buffer.place();
        let end = place + self.length(buffer);
        &self.bytes[place..end]
    }

    // A copy of a buffer in a room of the caller's, to be lent as it is.
    pub fn copied<'a>(&self, buffer: Buffer, room: &'a mut [u8]) -> &'a mut [u8]
        requires { buffer_room buffer ≤ length room.old }
        ensures { length result.now ≤ buffer_room buffer }
    {
        let bytes = self.buffer(buffer);
        let copy = &mut room[..bytes.len()];
        copy.copy_from_slice(bytes);
        copy
    }

    // How long a buffer is.
    fn length(&self, buffer: Buffer) -> usize
        ensures { result ≤ buffer_room buffer }
    {
        match buffer {
            Buffer::Outbox => self.lengths.outbox,
            Buffer::Kept => self.lengths.kept,
            Buffer::Signatures => self.lengths.signatures,
            Buffer::Waiting => self.lengths.waiting,
        }
    }

    // A buffer is set, if there is room for it; else false.
    pub fn fill(&mut self, buffer: Buffer, said: &[u8]) -> bool
        ensures fits { result ≡ leb (length said.now) (buffer_room buffer) }
        ensures laid { self.new.bytes ≡ cond result (over self.old.bytes (place_of buffer) said.now) self.old.bytes }
        ensures lengths { self.new.lengths ≡ cond result (resized_to self.old.lengths buffer (length said.now)) self.old.lengths }
    {
        let n = said.len();
        if buffer.room() < n {
            return false;
        }
        put_bytes(&mut self.bytes, buffer.place(), said);
        self.lengths = self.lengths.resized(buffer, n);
        true
    }

    // An image of so many bytes is set at its place; false where there are more bytes, or fewer.
    pub fn put(&mut self, at: usize, size: usize, image: &[u8]) -> bool
        requires { at + size ≤ memory_size }
        ensures fits { result ≡ eqb (length image.now) size }
        ensures laid { self.new.bytes ≡ cond result (over self.old.bytes at image.now) self.old.bytes }
        ensures lengths { self.new.lengths ≡ self.old.lengths }
    {
        put(&mut self.bytes, at, size, image)
    }
}
