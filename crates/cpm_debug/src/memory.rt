//! Bytes of a machine's memory.
ghost use Rattle.std.specs.Prelude.{◌≡◌, ◌≤◌};
ghost use Rattle.cpm_debug.specs.Dialog.{bytes_from};

use cpm_machine::Machine;

/// Sixteen bytes from an address on.
pub(crate) fn sixteen(machine: &Machine, address: u16) -> [u8; 16]
    ensures { result ≡ bytes_from machine.now.memory address 16 }
{
    let mut bytes = [0; 16];
    for offset in 0..16u16 {
        bytes[offset as usize] = machine.peek(address.wrapping_add(offset));
    }
    bytes
}

/// Four bytes from an address on.
pub(crate) fn four(machine: &Machine, address: u16) -> [u8; 4]
    ensures { result ≡ bytes_from machine.now.memory address 4 }
{
    let mut bytes = [0; 4];
    for offset in 0..4u16 {
        bytes[offset as usize] = machine.peek(address.wrapping_add(offset));
    }
    bytes
}
