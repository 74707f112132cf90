//! The two directions as types. What the lock of a direction guards is said here alone: all else is
//! written once, over a type that stands for a direction.

ghost use Rattle.std.specs.Prelude.{◌≡◌};
ghost use Rattle.base_types.specs.declared.direction.Dir.{Dir};
ghost use Rattle.base_types.specs.declared.direction.Dir.TheVariants.{Read, Write};
ghost use Rattle.lockword.specs.declared.shared_rule.Half.{Half};
ghost use Rattle.lockword.specs.Directions.{IsHalf, half_of};

use crate::shared_rule::Half;
use base_types::Dir;

/// A direction, as a type.
pub trait Direction {
    ghost dir: { Dir };

    /// The direction.
    fn dir() -> Dir
        ensures { result ≡ dir };
}

/// A direction's half, by itself and as a slot holds it.
pub trait Guards<R, W>: Direction {
    /// What the lock of this direction guards.
    type Guarded;

    /// The half, as its slot holds it.
    ghost stored: { Self.Guarded → Half R W };

    /// The half, for its slot.
    fn to_slot(half: Self::Guarded) -> Half<R, W>
        ensures half { IsHalf Self.dir result }
        ensures same { result ≡ Self.stored half };

    /// The half, out of its slot.
    fn from_slot(found: Half<R, W>) -> Self::Guarded
        requires { IsHalf Self.dir found }
        ensures same { (half : Self.Guarded) → found ≡ Self.stored half → result ≡ half }
        ensures stored { found ≡ Self.stored result };
}

/// The direction of reading.
pub struct Reading;

impl Direction for Reading {
    ghost dir = { Read };

    fn dir() -> Dir {
        Dir::Read
    }
}

impl<R, W> Guards<R, W> for Reading {
    type Guarded = R;

    ghost stored = { half_of Read };

    fn to_slot(half: R) -> Half<R, W> {
        Half::Read(half)
    }

    fn from_slot(found: Half<R, W>) -> R
        requires { IsHalf Read found }
        ensures same { (half : R) → found ≡ half_of Read half → result ≡ half }
        ensures stored { found ≡ half_of Read result }
    {
        let Half::Read(half) = found else {
            unreachable!()
        };
        half
    }
}

/// The direction of writing.
pub struct Writing;

impl Direction for Writing {
    ghost dir = { Write };

    fn dir() -> Dir {
        Dir::Write
    }
}

impl<R, W> Guards<R, W> for Writing {
    type Guarded = W;

    ghost stored = { half_of Write };

    fn to_slot(half: W) -> Half<R, W> {
        Half::Write(half)
    }

    fn from_slot(found: Half<R, W>) -> W
        requires { IsHalf Write found }
        ensures same { (half : W) → found ≡ half_of Write half → result ≡ half }
        ensures stored { found ≡ half_of Write result }
    {
        let Half::Write(half) = found else {
            unreachable!()
        };
        half
    }
}
