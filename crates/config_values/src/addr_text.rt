//! The text of an address.

ghost use Rattle.std.specs.Prelude.{◌≡◌, ◌≤◌, ◌+◌, ◌++◌, length};
ghost use Rattle.std.specs.Fmt.{decimal};
ghost use Rattle.std.specs.Net.Text.{scope_text};
ghost use Rattle.arrayvec.specs.ArrayVec.{array_vec_len};
ghost use Rattle.config_values.specs.Addr.{address_of, address_text};

use crate::addr::Addr;
use crate::host_name::MAX_NAME_BYTES;
use arrayvec::ArrayVec;
use ip_text::{dotted, ipv6_text};
use itoa::Buffer;

/// The most bytes of an address's text: those of a name, `tcp:` before it, a colon and a port.
pub const MAX_ADDR_BYTES: usize = MAX_NAME_BYTES + 10;

impl Addr {
    /// The address as a configuration spells it, at most 263 bytes.
    pub fn text(&self) -> ArrayVec<u8, MAX_ADDR_BYTES>
        ensures { result.items ≡ address_text (address_of self.now) }
    {
        let mut text = ArrayVec::new();
        match self {
            Addr::V4(ip, port) => {
                put(&mut text, b"tcp:");
                put(&mut text, dotted(*ip).as_slice());
                put_port(&mut text, b":", *port);
            }
            Addr::V6(ip, scope, port) => {
                put(&mut text, b"tcp:[");
                put(&mut text, ipv6_text(*ip).as_slice());
                put_scope(&mut text, *scope);
                put_port(&mut text, b"]:", *port);
            }
            Addr::Unix(path) => {
                put(&mut text, b"unix:");
                put(&mut text, path.as_str().as_bytes());
            }
            Addr::Name(name, port) => {
                put(&mut text, b"tcp:");
                put(&mut text, name.as_str().as_bytes());
                put_port(&mut text, b":", *port);
            }
        }
        text
    }
}

/// Puts `%` and the scope behind the text, or nothing for none.
fn put_scope(text: &mut ArrayVec<u8, MAX_ADDR_BYTES>, scope: u32)
    requires { array_vec_len text.old + 11 ≤ MAX_ADDR_BYTES }
    ensures bytes { text.new.items ≡ text.old.items ++ scope_text scope }
    ensures short { array_vec_len text.new ≤ array_vec_len text.old + 11 }
{
    if scope > 0 {
        let mut digits = Buffer::new();
        put(text, b"%");
        put(text, digits.format(scope).as_bytes());
    }
}

/// Puts these bytes and a port behind the text.
fn put_port(text: &mut ArrayVec<u8, MAX_ADDR_BYTES>, words: &[u8], port: u16)
    requires { array_vec_len text.old + length words.now + 5 ≤ MAX_ADDR_BYTES }
    ensures bytes { text.new.items ≡ text.old.items ++ (words.now ++ decimal port) }
{
    let mut digits = Buffer::new();
    put(text, words);
    put(text, digits.format(port).as_bytes());
}

/// Puts these bytes behind the text.
fn put(text: &mut ArrayVec<u8, MAX_ADDR_BYTES>, bytes: &[u8])
    requires { array_vec_len text.old + length bytes.now ≤ MAX_ADDR_BYTES }
    ensures bytes { text.new.items ≡ text.old.items ++ bytes.now }
    ensures len { array_vec_len text.new ≡ array_vec_len text.old + length bytes.now }
{
    if text.try_extend_from_slice(bytes).is_err() {
        unreachable!();
    }
}
