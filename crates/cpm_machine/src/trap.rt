//! Addresses at which a call is done, whatever bytes lie there.

ghost use Rattle.std.specs.Prelude.{◌≡◌, is_some};
ghost use Rattle.cpm_machine.specs.Trap.{trap_at};

use cpm_memory::layout::{BDOS, COMMAND_PROCESSOR, FIRST_BIOS, LAST_BIOS};

/// What is done at a trap address.
#[derive(Clone, Copy, Debug, PartialEq, Eq)]
pub enum Trap {
    CommandProcessor,
    Bdos,
    /// The call of the BIOS with this number.
    Bios(u8),
}

impl Trap {
    /// The trap at an address.
    #[inline(always)]
    #[tactic(auto, unfolding(crate::specs::Trap::trap_at))]
    pub fn at(address: u16) -> Option<Trap>
        ensures { result ≡ trap_at address }
    {
        if address < COMMAND_PROCESSOR {
            return None;
        }
        match address {
            COMMAND_PROCESSOR => Some(Trap::CommandProcessor),
            BDOS => Some(Trap::Bdos),
            FIRST_BIOS..=LAST_BIOS => Some(Trap::Bios((address - FIRST_BIOS) as u8)),
            _ => None,
        }
    }

    /// Whether a trap is at an address.
    #[inline(always)]
    pub fn is_at(address: u16) -> bool
        ensures { result ≡ is_some (trap_at address) }
    {
        Trap::at(address).is_some()
    }
}
