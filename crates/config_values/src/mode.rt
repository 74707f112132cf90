//! Modes of files, as `0660`.

ghost use Rattle.std.specs.Prelude.{◌≡◌, ◌<◌, ◌+◌, ◌≤◌, IfSome};
ghost use Rattle.config_values.specs.Mode.{mode_at, octal_digit};

/// The mode that a text spells: `0` and three octal digits, for the owner, the group and others.
/// `None` where it spells none.
#[tactic(auto, unfolding(crate::specs::Mode::mode_at))]
pub fn mode_of(text: &[u8]) -> Option<u16>
    ensures { result ≡ mode_at text.now }
{
    match text {
        [b'0', owner, group, others] => {
            let owner = octal_digit(*owner)?;
            let group = octal_digit(*group)?;
            let others = octal_digit(*others)?;
            Some(64 * owner + 8 * group + others)
        }
        _ => None,
    }
}

fn octal_digit(byte: u8) -> Option<u16>
    ensures value { result ≡ octal_digit byte }
    ensures low { IfSome result (λ digit. digit < 8) }
{
    match byte {
        b'0'..=b'7' => Some(u16::from(byte - b'0')),
        _ => None,
    }
}
