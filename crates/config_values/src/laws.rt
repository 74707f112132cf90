//! Laws of values and of their texts. The bodies are empty.

ghost use Rattle.std.specs.Prelude.{◌≡◌};
ghost use Rattle.config_values.specs.Laws.{AddressesAreRead, AddressesAreReadBack, ColonHexIsRead};
ghost use Rattle.config_values.specs.Laws.{DottedIsRead, ModesAreRead, RatesAreRead, TimesAreRead};

use crate::addr::MAX_PATH_BYTES;
use crate::addr_text::MAX_ADDR_BYTES;
use crate::host_name::{MAX_LABEL_BYTES, MAX_NAME_BYTES};
use crate::rate::MAX_RATE;
use crate::time::DAY_MS;

/// A time, a rate or a mode is read from a text that spells it, and from no other.
pub fn values_are_read_from_their_texts()
    ensures times { TimesAreRead }
    ensures rates { RatesAreRead }
    ensures modes { ModesAreRead }
{}

/// An IP address is read from the texts of the public grammar, and from no others.
pub fn ip_addresses_are_read_by_the_grammar()
    ensures dotted { DottedIsRead }
    ensures colon_hex { ColonHexIsRead }
{}

/// What is read as an address may stand in a configuration, and such an address is read back from
/// its text.
pub fn an_address_is_read_back_from_its_text()
    ensures read { AddressesAreRead }
    ensures back { AddressesAreReadBack }
{}

/// The limits in figures.
pub fn the_limits_in_figures()
    ensures day { DAY_MS ≡ 86400000 }
    ensures rate { MAX_RATE ≡ 1000000 }
    ensures path { MAX_PATH_BYTES ≡ 107 }
    ensures name { MAX_NAME_BYTES ≡ 253 }
    ensures label { MAX_LABEL_BYTES ≡ 63 }
    ensures text { MAX_ADDR_BYTES ≡ 263 }
{}
