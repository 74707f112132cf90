//! What the benchmarks call: loops over proved functions, on numbers and byte slices.
#![tactic(auto)]

use base_types::Dir;
use lockword_core::{Kind, word_step};

/// The step that a byte stands for.
fn kind_of(code: u8) -> Kind {
    match code {
        0 => Kind::Incref,
        1 => Kind::Decref,
        2 => Kind::Lock(Dir::Read),
        3 => Kind::Unlock(Dir::Read),
        4 => Kind::Lock(Dir::Write),
        5 => Kind::Unlock(Dir::Write),
        _ => Kind::Close,
    }
}

/// Makes one step for each code, and gives the last word with the number of refusals above it.
#[unsafe(no_mangle)]
pub extern "C" fn bench_exports_word_steps(codes: &[u8], first: u64) -> u64 {
    let mut word = first;
    let mut refusals = 0u64;
    for code in codes {
        match word_step(word, kind_of(*code)) {
            Ok((next, _)) => word = next,
            Err(_) => refusals = refusals.wrapping_add(1),
        }
    }
    word.wrapping_add(refusals << 32)
}
