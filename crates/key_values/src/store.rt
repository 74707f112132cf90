//! What the commands do with a store, and what they answer.

ghost use Rattle.std.specs.Prelude.{◌≡◌, ◌++◌, OnErr, OnOk};
ghost use Rattle.std.specs.BTreeMap.{IsUnchanged};
ghost use Rattle.key_values.specs.Store.{Does, reply_of};

use crate::command::Command;
use std::alloc::AllocError;
use std::collections::BTreeMap;

/// Texts by their keys.
pub type Store = BTreeMap<String, String>;

/// Carries a command out, and puts its answer behind what is to be sent, a line. The memory is of
/// the answer's allocator; where it is refused, nothing is done and nothing answered.
pub fn carry_out(
    store: &mut Store,
    command: &Command<'_>,
    out: &mut Vec<u8>,
) -> Result<(), AllocError>
    ensures does { OnOk result (Does command.now store.old store.new) }
    ensures replies { OnOk result (out.new.items ≡ out.old.items ++ reply_of store.old command.now) }
    ensures kept { OnErr result (IsUnchanged store.old store.new) }
    ensures unsaid { OnErr result (out.new.items ≡ out.old.items) }
{
    let alloc = *out.allocator();
    match *command {
        Command::Set(key, value) => {
            let (key, value) = (
                String::from_str(alloc, key)?,
                String::from_str(alloc, value)?,
            );
            out.reserve(3)?;
            store.insert(key, value)?;
            out.extend_from_slice(b"OK\n")
        }
        Command::Get(key) => match store.get(key) {
            Some(value) => {
                let line = format!(in alloc; "VALUE {}\n", value)?;
                out.extend_from_slice(line.as_bytes())
            }
            None => out.extend_from_slice(b"NONE\n"),
        },
        Command::Del(key) => {
            out.reserve(5)?;
            match store.remove(key) {
                Some(_) => out.extend_from_slice(b"OK\n"),
                None => out.extend_from_slice(b"NONE\n"),
            }
        }
        Command::Count => {
            let line = format!(in alloc; "COUNT {}\n", store.len())?;
            out.extend_from_slice(line.as_bytes())
        }
        Command::Quit | Command::Shutdown => out.extend_from_slice(b"BYE\n"),
    }
}
