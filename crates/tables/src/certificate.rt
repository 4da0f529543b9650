// A certificate that was read: what the judge is given.
use crate::{Merging, Tables};

// All that a file says.
#[derive(Clone, Copy)]
pub struct Certificate {
    pub tables: Tables,
    pub merging: Merging,
}
