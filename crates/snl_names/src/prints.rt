//! The print of a name.

ghost use Rattle.std.specs.Prelude.{◌≡◌};
ghost use Rattle.snl_names.specs.Prints.{print_of};

// An odd number past 256, so that two names of two bytes never share a print.
const FACTOR: u64 = 1_099_511_628_211;

/// A number that the bytes of a name give. It only spreads the names: those of one print are told
/// apart by their bytes.
pub(crate) fn print_of(name: &[u8]) -> u64
    ensures { result ≡ print_of name.now }
{
    let mut print: u64 = 0;
    for byte in name {
        print = print.wrapping_mul(FACTOR).wrapping_add(u64::from(*byte));
    }
    print
}
