//! A client's address as a number, by which its target is found again.

ghost use Rattle.std.specs.Prelude.{◌≡◌};
ghost use Rattle.target_pick.specs.Source.{source_number};

/// FNV-1a's first value, for 64 bits.
const OFFSET: u64 = 14_695_981_039_346_656_037;

/// FNV-1a's factor, for 64 bits.
const PRIME: u64 = 1_099_511_628_211;

/// The number of a client's address: its bytes by FNV-1a of 64 bits. It spreads clients over the
/// targets. A client that may choose its address can choose its target.
pub fn source_number(address: &[u8]) -> u64
    ensures { result ≡ source_number address.now }
{
    let mut hash = OFFSET;
    for byte in address {
        hash = (hash ^ u64::from(*byte)).wrapping_mul(PRIME);
    }
    hash
}
