ghost use Rattle.std.specs.Prelude.{◌≡◌};

use kernel_check::KernelFault;
use ld_terms::{Halt, Name};
use std::alloc::{AllocError, AllocFailed};
use term_text::ScopeFault;

/// Why an item isn't added to an environment. `Scope` and `Kernel` never hold want of memory.
#[derive(Debug, Drop)]
pub enum ItemFault<H> {
    /// An item before it has the name.
    NameTaken(Name),
    /// A name can't be resolved, or there is a hole.
    Scope(ScopeFault),
    /// A type or a sort isn't found, or not the wanted one; or the fuel ran out.
    Kernel(KernelFault<H>),
    /// Want of memory.
    Memory,
}

impl<H> From<AllocError> for ItemFault<H> {
    ghost use Rattle.book_reader.specs.declared.checked.ItemFault.TheVariants.{Memory};

    ghost from_gives = { λ _ e. e ≡ Memory };

    fn from(_error: AllocError) -> ItemFault<H> {
        ItemFault::Memory
    }
}

impl<H, T: Drop> From<AllocFailed<T>> for ItemFault<H> {
    ghost use Rattle.book_reader.specs.declared.checked.ItemFault.TheVariants.{Memory};

    ghost from_gives = { λ _ e. e ≡ Memory };

    fn from(_error: AllocFailed<T>) -> ItemFault<H> {
        ItemFault::Memory
    }
}

impl<H> From<ScopeFault> for ItemFault<H> {
    ghost use Rattle.book_reader.specs.Faults.{scope_fault};

    ghost from_gives = { λ f e. e ≡ scope_fault f };

    fn from(fault: ScopeFault) -> ItemFault<H> {
        match fault {
            ScopeFault::Memory => ItemFault::Memory,
            _ => ItemFault::Scope(fault),
        }
    }
}

impl<H: Copy> From<KernelFault<H>> for ItemFault<H> {
    ghost use Rattle.book_reader.specs.Faults.{kernel_fault};

    ghost from_gives = { λ f e. e ≡ kernel_fault f };

    fn from(fault: KernelFault<H>) -> ItemFault<H> {
        match fault {
            KernelFault::Memory => ItemFault::Memory,
            _ => ItemFault::Kernel(fault),
        }
    }
}

impl<H> From<Halt> for ItemFault<H> {
    ghost use Rattle.book_reader.specs.Faults.{halt_fault};

    ghost from_gives = { λ h e. e ≡ halt_fault h };

    fn from(halt: Halt) -> ItemFault<H> {
        match halt {
            Halt::Fuel => ItemFault::Kernel(KernelFault::Fuel),
            Halt::Memory => ItemFault::Memory,
        }
    }
}
