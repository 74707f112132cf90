//! Names of hosts, by RFC 1123: labels with dots between them.

ghost use Rattle.std.specs.Prelude.{◌≡◌, ◌&&◌};
ghost use Rattle.std.specs.Char.{is_ascii_digit};
ghost use Rattle.std.specs.List.{list_all};
ghost use Rattle.config_values.specs.HostName.{are_labels, is_host_name, is_label, is_label_byte};
ghost use Rattle.config_values.specs.HostName.{is_alphanumeric, labels_of};

use text_reading::split_once;

/// The most bytes of a label.
pub const MAX_LABEL_BYTES: usize = 63;

/// The most bytes of a name.
pub const MAX_NAME_BYTES: usize = 253;

/// Whether a text is a host's name: at most 253 bytes, labels with a dot between each two. A label
/// has 1 to 63 letters, digits and hyphens, no hyphen at its begin or its end. The last label isn't
/// digits alone, so that no name looks like an IPv4 address.
#[tactic(auto, unfolding(crate::specs::HostName::is_host_name))]
pub fn is_host_name(text: &[u8]) -> bool
    ensures { result ≡ is_host_name text.now }
{
    text.len() <= MAX_NAME_BYTES && are_labels(text)
}

fn are_labels(text: &[u8]) -> bool
    ensures { result ≡ are_labels (labels_of text.now) }
{
    let mut rest = text;
    while let Some((label, behind)) = split_once(rest, b'.') {
        if !is_label(label) {
            return false;
        }
        rest = behind;
    }
    is_label(rest) && !are_digits(rest)
}

#[tactic(auto, unfolding(crate::specs::HostName::is_label))]
fn is_label(text: &[u8]) -> bool
    ensures { result ≡ is_label text.now }
{
    if text.is_empty() || text.len() > MAX_LABEL_BYTES {
        return false;
    }
    is_alphanumeric(text[0]) && is_alphanumeric(text[text.len() - 1]) && are_label_bytes(text)
}

fn are_label_bytes(text: &[u8]) -> bool
    ensures { result ≡ list_all is_label_byte text.now }
{
    for byte in text {
        if !is_alphanumeric(*byte) && *byte != b'-' {
            return false;
        }
    }
    true
}

fn are_digits(text: &[u8]) -> bool
    ensures { result ≡ list_all is_ascii_digit text.now }
{
    for byte in text {
        if !byte.is_ascii_digit() {
            return false;
        }
    }
    true
}

fn is_alphanumeric(byte: u8) -> bool
    ensures { result ≡ is_alphanumeric byte }
{
    (b'a' <= byte && byte <= b'z') || (b'A' <= byte && byte <= b'Z') || byte.is_ascii_digit()
}
