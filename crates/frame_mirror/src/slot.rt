//! Where readers find the mark that is shown.

use left_right::Absorb;
use std::alloc::{AllocError, Global};
use std::sync::{Arc, OnceLock};

/// A place for a mark, which is set once its frame stands in the list.
#[derive(Drop)]
pub struct Slot<M> {
    pub(crate) top: OnceLock<M>,
}

/// One of the two copies of what is shown, of which readers see one while the publisher changes the other.
#[derive(Drop)]
pub struct Showing<M> {
    pub(crate) slot: Arc<Slot<M>>,
}

/// A change of what is shown: the slot of a later mark.
pub type Change<M> = Arc<Slot<M>>;

impl<M: Drop> Absorb<Change<M>> for Showing<M> {
    type State = ();

    ghost state = { λ _. tt };

    ghost applied = { λ _ _. tt };

    fn absorb_first(&mut self, slot: &Change<M>, _other: &Showing<M>) -> Result<(), AllocError> {
        self.slot = Arc::try_clone(slot)?;
        Ok(())
    }

    fn absorb_second(&mut self, slot: Change<M>, _other: &Showing<M>) -> Result<(), Change<M>> {
        self.slot = slot;
        Ok(())
    }
}

/// A slot with no mark yet. Refused where memory is wanting.
pub(crate) fn empty_slot<M: Drop>(alloc: Global) -> Result<Change<M>, AllocError> {
    let slot = Slot {
        top: OnceLock::new(),
    };
    Arc::new(alloc, slot).map_err(|_| AllocError)
}
