//! The name of a rule.

ghost use Rattle.std.specs.Prelude.{◌≡◌};
ghost use Rattle.std.specs.List.{list_all};
ghost use Rattle.toml.specs.View.{view};
ghost use Rattle.relay_config.specs.Fault.{Reads};
ghost use Rattle.relay_config.specs.Reading.{spelled};
ghost use Rattle.relay_config.specs.Values.{is_name_byte, is_rule_name, rule_name};

use crate::fault::{Fault, Spot, Wrong};
use crate::values::text_of;
use arrayvec::ArrayString;
use toml::Value;

/// The most bytes of a rule's name.
pub const MAX_NAME_BYTES: usize = 16;

/// A rule's name, by the text of a value.
pub(crate) fn name_of_value(spot: Spot, value: &Value) -> Result<ArrayString<MAX_NAME_BYTES>, Fault>
    ensures { Reads (λ name. name.bytes) result (spelled rule_name spot (view value.now)) }
{
    let text = text_of(spot, value)?;
    if !is_rule_name(text.as_bytes()) {
        return Err(Fault::At(spot, Wrong::Value));
    }
    match ArrayString::from(text) {
        Ok(name) => Ok(name),
        Err(_) => unreachable!(),
    }
}

fn is_rule_name(text: &[u8]) -> bool
    ensures { result ≡ is_rule_name text.now }
{
    if text.is_empty() || text[0] < b'a' || b'z' < text[0] {
        return false;
    }
    are_name_bytes(text) && text.len() <= MAX_NAME_BYTES
}

fn are_name_bytes(text: &[u8]) -> bool
    ensures { result ≡ list_all is_name_byte text.now }
{
    for byte in text {
        if !may_stand_in_name(*byte) {
            return false;
        }
    }
    true
}

fn may_stand_in_name(byte: u8) -> bool
    ensures { result ≡ is_name_byte byte }
{
    (b'a' <= byte && byte <= b'z') || (b'0' <= byte && byte <= b'9') || byte == b'-'
}
