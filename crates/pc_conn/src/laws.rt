//! What holds of the types of this crate.

use crate::body::Body;
use crate::body_fault::BodyFault;
use pc_base::crosses_threads;

/// What a text gives goes to other threads.
pub fn bodies_cross_threads() {
    crosses_threads::<Body>();
    crosses_threads::<BodyFault>();
}
