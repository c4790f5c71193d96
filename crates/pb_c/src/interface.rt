//! Which calls the library has.

ghost use Rattle.std.specs.Prelude.{◌≡◌};

/// The number of the header.
const INTERFACE: u32 = 10;

/// The number of the interface: a library that answers another number than a header says has other calls.
#[unsafe(no_mangle)]
pub extern "C" fn mb_interface() -> u32
    ensures { result ≡ INTERFACE }
{
    INTERFACE
}
