//! Keys that wait to be read, bytes that wait to be taken, and the column of the cursor.

ghost use Rattle.std.specs.Prelude.{◌≡◌, ◌<◌, ◌≤◌, ◌+◌, ◌-◌, ◌%◌, ◌↔◌, ◌++◌, ◌∷◌, [], length, take, drop, min, slice_get, IsTrue, IfNone, IfOk, if◌then◌else◌};
ghost use Rattle.cpm_console.specs.Terminal.{blank_terminal, pressed, key_read, has_room, shown, printed, said, expanded};
ghost use Rattle.cpm_console.specs.Terminal.{column_after, column_past, waiting_on, with_waiting, most_pending, most_waiting};

use crate::device::Device;
use circular_buffer::HeapCircularBuffer;
use std::alloc::{AllocError, Global};
use std::marker::Model;

/// How many keys may be pending.
pub const KEYS: usize = 4096;

/// How many bytes of output may wait on each device.
pub const RING: usize = 8192;

/// How many bytes a step may put on each device, at most.
pub const STEP_OUTPUT: usize = 4096;

/// The console and the list device of a session: up to 4,096 keys that were pressed and not yet read, and on each device
/// up to 8,192 bytes that were put and not yet taken.
#[derive(Drop)]
pub struct Console {
    pending: HeapCircularBuffer<u8>,
    screen: HeapCircularBuffer<u8>,
    printer: HeapCircularBuffer<u8>,
    column: u8,
    list_echo: bool,
}

impl Model for Console {
    ghost use Rattle.std.specs.Prelude.{◌≡◌};
    ghost use Rattle.cpm_console.specs.Terminal.{Terminal, most_pending, most_waiting};

    ghost Value = { Terminal };

    ghost view = { λ c. record { keys = c.pending.items; screen = c.screen.items; printer = c.printer.items; column = c.column; list_echo = c.list_echo } };

    ghost invariant = { λ c. (c.pending.capacity ≡ most_pending) × (c.screen.capacity ≡ most_waiting) × (c.printer.capacity ≡ most_waiting) };
}

/// A ring with the same bytes and as much room.
fn ring_copy(
    alloc: Global,
    ring: &HeapCircularBuffer<u8>,
) -> Result<HeapCircularBuffer<u8>, AllocError>
    ensures { IfOk result (λ copy. (copy.items ≡ ring.now.items) × (copy.capacity ≡ ring.now.capacity)) }
{
    let mut copy = HeapCircularBuffer::with_capacity(alloc, ring.capacity())?;
    let _within = ring.len();
    let (front, back) = ring.as_slices();
    copy.fill_from_slice(front);
    copy.fill_from_slice(back);
    Ok(copy)
}

/// A ring with room for this many bytes, and with these bytes.
fn ring_of(
    alloc: Global,
    capacity: usize,
    bytes: &[u8],
) -> Result<HeapCircularBuffer<u8>, AllocError>
    requires { length bytes.now ≤ capacity }
    ensures { IfOk result (λ ring. (ring.items ≡ bytes.now) × (ring.capacity ≡ capacity)) }
{
    let mut ring = HeapCircularBuffer::with_capacity(alloc, capacity)?;
    ring.fill_from_slice(bytes);
    Ok(ring)
}

impl Console {
    /// A console on which nothing was done. All the memory that it ever takes is taken here; refused if there is none left.
    pub fn new(alloc: Global) -> Result<Self, AllocError>
        ensures { IfOk result (λ c. c ≡ blank_terminal) }
    {
        let pending = HeapCircularBuffer::with_capacity(alloc, KEYS)?;
        let screen = HeapCircularBuffer::with_capacity(alloc, RING)?;
        let printer = HeapCircularBuffer::with_capacity(alloc, RING)?;
        Ok(Console {
            pending,
            screen,
            printer,
            column: 0,
            list_echo: false,
        })
    }

    /// The console with these pending keys, these bytes that wait on each device, this column of the cursor, and the echo to the
    /// list device on or off; refused if out of memory.
    pub fn with_contents(
        alloc: Global,
        keys: &[u8],
        screen: &[u8],
        printer: &[u8],
        column: u8,
        list_echo: bool,
    ) -> Result<Console, AllocError>
        requires keys { length keys.now ≤ most_pending }
        requires screen { length screen.now ≤ most_waiting }
        requires printer { length printer.now ≤ most_waiting }
        ensures { IfOk result (λ c. c ≡ record { keys = keys.now; screen = screen.now; printer = printer.now; column = column; list_echo = list_echo }) }
    {
        Ok(Console {
            pending: ring_of(alloc, KEYS, keys)?,
            screen: ring_of(alloc, RING, screen)?,
            printer: ring_of(alloc, RING, printer)?,
            column,
            list_echo,
        })
    }

    /// An equal console; refused if out of memory.
    pub fn copy(&self, alloc: Global) -> Result<Console, AllocError>
        ensures { IfOk result (λ c. c ≡ self.now) }
    {
        let pending = ring_copy(alloc, &self.pending)?;
        let screen = ring_copy(alloc, &self.screen)?;
        let printer = ring_copy(alloc, &self.printer)?;
        Ok(Console {
            pending,
            screen,
            printer,
            column: self.column,
            list_echo: self.list_echo,
        })
    }

    /// Adds a key, unless 4,096 are pending: then nothing changes, and the answer is false.
    pub fn give(&mut self, key: u8) -> bool
        ensures taken { IsTrue result ↔ (length self.old.keys < most_pending) }
        ensures after { self.new ≡ (if result then pressed self.old key else self.old) }
    {
        self.pending.try_push_back(key).is_ok()
    }

    /// The key that is read next, if one is pending.
    pub fn first_key(&self) -> Option<u8>
        ensures { result ≡ slice_get self.now.keys 0 }
    {
        self.pending.front().copied()
    }

    /// Reads a key, if one is pending.
    pub fn next_key(&mut self) -> Option<u8>
        ensures key { result ≡ slice_get self.old.keys 0 }
        ensures after { self.new ≡ key_read self.old }
        ensures none { IfNone result (self.new ≡ self.old) }
    {
        self.pending.pop_front()
    }

    /// How many keys are pending.
    pub fn pending(&self) -> usize
        ensures value { result ≡ length self.now.keys }
        ensures fits { result ≤ most_pending }
    {
        self.pending.len()
    }

    /// The pending keys in two parts, the first pressed first.
    pub fn keys(&self) -> (&[u8], &[u8])
        ensures value { result.0.now ++ result.1.now ≡ self.now.keys }
        ensures fits { length self.now.keys ≤ most_pending }
    {
        let _within = self.pending.len();
        self.pending.as_slices()
    }

    /// The bytes that wait on a device in two parts, the first put first.
    pub fn waiting_on(&self, device: Device) -> (&[u8], &[u8])
        ensures value { result.0.now ++ result.1.now ≡ waiting_on device self.now }
        ensures fits { length (waiting_on device self.now) ≤ most_waiting }
    {
        let _within = (self.screen.len(), self.printer.len());
        match device {
            Device::Console => self.screen.as_slices(),
            Device::List => self.printer.as_slices(),
        }
    }

    /// How many console bytes wait to be taken.
    pub fn held(&self) -> usize
        ensures value { result ≡ length self.now.screen }
        ensures fits { result ≤ most_waiting }
    {
        self.screen.len()
    }

    /// How many list bytes wait to be taken.
    pub fn held_list(&self) -> usize
        ensures value { result ≡ length self.now.printer }
        ensures fits { result ≤ most_waiting }
    {
        self.printer.len()
    }

    /// The column of the cursor.
    pub fn column(&self) -> u8
        ensures value { result ≡ self.now.column }
        ensures fits { self.now.column ≤ 255 }
    {
        self.column
    }

    /// Whether what is said on the console goes to the list device too.
    pub fn list_echo(&self) -> bool
        ensures { result ≡ self.now.list_echo }
    {
        self.list_echo
    }

    /// Turns the echo to the list device on or off.
    pub fn set_list_echo(&mut self, on: bool)
        ensures { self.new ≡ record self.old { list_echo = on } }
    {
        self.list_echo = on;
    }

    /// Whether both devices have room for all that a step may put.
    pub fn has_room(&self) -> bool
        ensures { result ≡ has_room self.now }
    {
        self.screen.len() <= RING - STEP_OUTPUT && self.printer.len() <= RING - STEP_OUTPUT
    }

    /// Shows a byte on the console as it is. There must be room for it.
    #[tactic(auto, unfolding(crate::specs::Terminal::shown))]
    pub fn put(&mut self, byte: u8)
        requires { length self.old.screen < most_waiting }
        ensures { self.new ≡ shown self.old (byte ∷ []) }
    {
        self.screen.push_back(byte);
        self.column = column_after(self.column, byte);
    }

    /// Sends a byte to the list device. There must be room for it.
    #[tactic(auto, unfolding(crate::specs::Terminal::printed))]
    pub fn put_list(&mut self, byte: u8)
        requires { length self.old.printer < most_waiting }
        ensures { self.new ≡ printed self.old (byte ∷ []) }
    {
        self.printer.push_back(byte);
    }

    /// Shows a byte on the console as it is, and on the list device too while it echoes. There must be room for it.
    pub fn say(&mut self, byte: u8)
        requires screen { length self.old.screen < most_waiting }
        requires printer { length self.old.printer < most_waiting }
        ensures { self.new ≡ said self.old (byte ∷ []) }
    {
        self.say_all(&[byte]);
    }

    /// Shows bytes as they are, and on the list device too while it echoes. There must be room for them.
    #[tactic(auto, unfolding(crate::specs::Terminal::said))]
    pub fn say_all(&mut self, bytes: &[u8])
        requires screen { length self.old.screen + length bytes.now ≤ most_waiting }
        requires printer { length self.old.printer + length bytes.now ≤ most_waiting }
        ensures { self.new ≡ said self.old bytes.now }
    {
        self.screen.fill_from_slice(bytes);
        if self.list_echo {
            self.printer.fill_from_slice(bytes);
        }
        self.column = column_past(self.column, bytes);
    }

    /// Shows a byte, a tab as spaces up to the next column that is a multiple of 8, and on the list device too while it
    /// echoes. There must be room for 8 bytes.
    #[tactic(auto, unfolding(crate::specs::Terminal::expanded))]
    pub fn write(&mut self, byte: u8)
        requires screen { length self.old.screen + 8 ≤ most_waiting }
        requires printer { length self.old.printer + 8 ≤ most_waiting }
        ensures { self.new ≡ said self.old (expanded self.old.column byte) }
    {
        if byte == b'\t' {
            let spaces = usize::from(8 - self.column % 8);
            self.say_all(&[b' '; 8][..spaces]);
        } else {
            self.say(byte);
        }
    }

    /// Moves out the first bytes of a device, as many as fit, and says how many.
    pub fn take_from(&mut self, device: Device, out: &mut [u8]) -> usize
        ensures count { result ≡ min (length out.old) (length (waiting_on device self.old)) }
        ensures bytes { out.new ≡ take result (waiting_on device self.old) ++ drop result out.old }
        ensures after { self.new ≡ with_waiting device (drop result (waiting_on device self.old)) self.old }
    {
        match device {
            Device::Console => self.screen.read_into(out),
            Device::List => self.printer.read_into(out),
        }
    }

    /// Moves out the first console bytes, as many as fit, and says how many.
    pub fn take(&mut self, out: &mut [u8]) -> usize
        ensures count { result ≡ min (length out.old) (length self.old.screen) }
        ensures bytes { out.new ≡ take result self.old.screen ++ drop result out.old }
        ensures after { self.new ≡ record self.old { screen = drop result self.old.screen } }
    {
        self.take_from(Device::Console, out)
    }

    /// Moves out the first list bytes, as many as fit, and says how many.
    pub fn take_list(&mut self, out: &mut [u8]) -> usize
        ensures count { result ≡ min (length out.old) (length self.old.printer) }
        ensures bytes { out.new ≡ take result self.old.printer ++ drop result out.old }
        ensures after { self.new ≡ record self.old { printer = drop result self.old.printer } }
    {
        self.take_from(Device::List, out)
    }
}

/// The column after a byte.
#[tactic(auto, unfolding(crate::specs::Terminal::column_after))]
fn column_after(column: u8, byte: u8) -> u8
    ensures { result ≡ column_after column byte }
{
    match byte {
        0x08 => column.saturating_sub(1),
        0x0D => 0,
        0x20..=0x7E | 0x80..=0xFF => column.saturating_add(1),
        _ => column,
    }
}

/// The column after bytes.
fn column_past(column: u8, bytes: &[u8]) -> u8
    ensures { result ≡ column_past column bytes.now }
{
    bytes
        .iter()
        .fold(column, |at, byte| column_after(at, *byte))
}
