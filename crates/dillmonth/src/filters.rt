//! Which shapes a question sees.

ghost use Rattle.std.specs.Prelude.{◌≡◌};
ghost use Rattle.dillmonth.specs.Questions.{filter_said, mask_said, without_said};

use crate::conversions::handle_of;
use crate::forms::CHandle;
use world_core::Handle;
use world_queries::QueryFilter;

/// Which shapes a question sees.
#[repr(C)]
#[derive(Clone, Copy)]
pub struct CFilter {
    /// A body whose shapes aren't seen; an id of zeros leaves nobody out.
    pub without: CHandle,
    /// The categories that are seen.
    pub mask: u64,
    /// 0 where every category is seen, whatever the mask.
    pub by_mask: u32,
    pub unused: u32,
}

/// The body that is left out, if one is.
fn without_of(body: CHandle) -> Option<Handle>
    ensures { result ≡ without_said body }
{
    if body.slot == 0 && body.generation == 0 {
        None
    } else {
        Some(handle_of(body))
    }
}

/// The categories that are seen, if not all are.
fn mask_of(filter: &CFilter) -> Option<u64>
    ensures { result ≡ mask_said filter.now }
{
    if filter.by_mask == 0 {
        None
    } else {
        Some(filter.mask)
    }
}

/// The filter, if the field without a meaning is 0.
pub(crate) fn filter_of(filter: &CFilter) -> Option<QueryFilter>
    ensures { result ≡ filter_said filter.now }
{
    if filter.unused == 0 {
        Some(QueryFilter {
            without: without_of(filter.without),
            mask: mask_of(filter),
        })
    } else {
        None
    }
}
