ghost use Rattle.std.specs.Prelude.{◌≡◌};
ghost use Rattle.kernel_check.specs.Answers.{refused_as};

use ld_terms::Halt;
use std::alloc::{AllocError, AllocFailed};

/// Why the kernel gives no type. `depth` is the length of the context in which the shown terms stand.
#[derive(Clone, Copy, Debug, PartialEq, Eq)]
pub enum KernelFault<H> {
    /// A term that was to be a type is none, or a term has no type.
    NotType { depth: u32, term: H },
    /// A term that is applied, with its type, which is no function type.
    NotFunction { depth: u32, term: H, found: H },
    /// The type that was found for an argument, where the other was wanted.
    Mismatch { depth: u32, found: H, wanted: H },
    /// The type of a term that is applied, and the product that it reduces to, which has no sort.
    ReductIllTyped { depth: u32, term: H, reduct: H },
    /// A unit of work was wanted and none was left.
    Fuel,
    /// Want of memory.
    Memory,
}

impl<H> From<AllocError> for KernelFault<H> {
    ghost use Rattle.kernel_check.specs.declared.fault.KernelFault.TheVariants.{Memory};

    ghost from_gives = { λ _ e. e ≡ Memory };

    fn from(_error: AllocError) -> KernelFault<H> {
        KernelFault::Memory
    }
}

impl<H, T: Drop> From<AllocFailed<T>> for KernelFault<H> {
    ghost use Rattle.kernel_check.specs.declared.fault.KernelFault.TheVariants.{Memory};

    ghost from_gives = { λ _ e. e ≡ Memory };

    fn from(_error: AllocFailed<T>) -> KernelFault<H> {
        KernelFault::Memory
    }
}

impl<H> From<Halt> for KernelFault<H> {
    ghost use Rattle.kernel_check.specs.Answers.{fault_of};

    ghost from_gives = { λ h e. e ≡ fault_of h };

    fn from(halt: Halt) -> KernelFault<H> {
        match halt {
            Halt::Fuel => KernelFault::Fuel,
            Halt::Memory => KernelFault::Memory,
        }
    }
}

/// Another refusal in the place of each. Want of fuel or of memory stays.
pub fn or_refuse<H: Copy>(fault: KernelFault<H>, refusal: KernelFault<H>) -> KernelFault<H>
    ensures { result ≡ refused_as refusal fault }
{
    match fault {
        KernelFault::Fuel => KernelFault::Fuel,
        KernelFault::Memory => KernelFault::Memory,
        _ => refusal,
    }
}
