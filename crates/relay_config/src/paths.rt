//! Paths of files.

ghost use Rattle.std.specs.Prelude.{◌≡◌};
ghost use Rattle.std.specs.List.{list_all};
ghost use Rattle.toml.specs.View.{view};
ghost use Rattle.relay_config.specs.Fault.{Reads};
ghost use Rattle.relay_config.specs.Reading.{spelled};
ghost use Rattle.relay_config.specs.Values.{file_path, is_file_path, is_path_byte};

use crate::fault::{Fault, Spot, Wrong};
use crate::values::text_of;
use toml::Value;

/// The path that a value is: 1 to so many bytes, none of them zero.
pub(crate) fn path_of(most: usize, spot: Spot, value: &Value) -> Result<&str, Fault>
    ensures { Reads (λ path. path.now) result (spelled (file_path most) spot (view value.now)) }
{
    let text = text_of(spot, value)?;
    if !is_file_path(most, text.as_bytes()) {
        return Err(Fault::At(spot, Wrong::Value));
    }
    Ok(text)
}

fn is_file_path(most: usize, text: &[u8]) -> bool
    ensures { result ≡ is_file_path most text.now }
{
    !text.is_empty() && text.len() <= most && are_path_bytes(text)
}

fn are_path_bytes(text: &[u8]) -> bool
    ensures { result ≡ list_all is_path_byte text.now }
{
    for byte in text {
        if *byte == 0 {
            return false;
        }
    }
    true
}
