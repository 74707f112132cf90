//! Who fills a snapshot.

use crate::figures::Figures;
use base_types::OutOfMemory;

/// What has figures.
pub trait Metered {
    /// Puts the figures of this moment in place of all that the snapshot held. Its vectors keep
    /// their memory, so that it takes more only where there are more rules than ever before. Where
    /// memory is refused the snapshot may hold anything.
    fn read(&self, figures: &mut Figures) -> Result<(), OutOfMemory>;
}
