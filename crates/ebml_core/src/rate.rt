ghost use Rattle.std.specs.Prelude.{◌≡◌, ◌≤◌};
ghost use Rattle.ebml_core.specs.Rate.{double_bytes};

/// The content of a Float Element (RFC 8794, section 7.3) that holds the rate: the eight bytes of an
/// IEEE double. It takes no memory.
pub fn rate_bytes(rate: u32) -> [u8; 8]
    requires { 1 ≤ rate }
    ensures { result ≡ double_bytes rate }
{
    let exponent = rate.ilog2();
    let below_one = u64::from(rate - (1 << exponent)) << (52 - exponent);
    let bits = ((1023 + u64::from(exponent)) << 52) + below_one;
    bits.to_be_bytes()
}
