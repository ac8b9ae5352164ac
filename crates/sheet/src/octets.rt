//! Numbers in bytes, high byte first, and the sum of a sheet.
ghost use Rattle.std.specs.Prelude.{◌≡◌, ◌+◌, ◌≤◌, ◌++◌, length, take};
ghost use Rattle.sheet.specs.Octets.{pair_at, quad_at, sum_of};

/// Writes `part` into `out` from the place `at` on.
pub(crate) fn put(out: &mut [u8], at: usize, part: &[u8])
    requires { at + length part.now ≤ length out.old }
    ensures { take (at + length part.now) out.new ≡ take at out.old ++ part.now }
{
    let end = at + part.len();
    out[at..end].copy_from_slice(part);
}

/// The number in the two bytes from `at` on.
pub(crate) fn pair(bytes: &[u8], at: usize) -> u16
    requires { at + 2 ≤ length bytes.now }
    ensures { result ≡ pair_at bytes.now at }
{
    u16::from_be_bytes([bytes[at], bytes[at + 1]])
}

// `from_be_bytes` is no method of a trait, so one generic function would be longer than the two.
/// The number in the four bytes from `at` on.
pub(crate) fn quad(bytes: &[u8], at: usize) -> u32
    requires { at + 4 ≤ length bytes.now }
    ensures { result ≡ quad_at bytes.now at }
{
    u32::from_be_bytes([bytes[at], bytes[at + 1], bytes[at + 2], bytes[at + 3]])
}

/// The sum of (i + 1) × byte i over the first 508 bytes.
pub(crate) fn sum(bytes: &[u8]) -> u32
    requires { 508 ≤ length bytes.now }
    ensures { result ≡ sum_of bytes.now 508 }
{
    let mut sum: u32 = 0;
    for (i, byte) in bytes[..508].iter().enumerate() {
        sum += (i as u32 + 1) * u32::from(*byte);
    }
    sum
}
