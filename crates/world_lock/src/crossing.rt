//! What of a shared world may cross threads.

ghost use denote.Param.Send.{IsSend, IsSync};
ghost use Rattle.world_lock.specs.contracts.shared.SharedWorld.{the_row};

use crate::opened::Opened;
use crate::opening::Opening;
use seat_book::{Book, Keeper};
use world_core::{Command, Reply};

/// Shows that a type may cross threads, for whoever holds one in another.
fn shows_send<T: Send>()
    ensures { IsSend T.row }
{}

/// Shows that a type may be shared by threads.
fn shows_sync<T: Sync>()
    ensures { IsSync T.row }
{}

/// A shared world may be shared by threads: a law, for whoever starts some. It is shown part by part, once; a caller
/// that is generic in what its threads share asks for no more.
pub fn may_be_shared<N: Opened + Send + Sync>()
    ensures { IsSync (the_row N.row N.Named (record { opening = N.opening })) }
{
    shows_send::<Opening>();
    shows_send::<Keeper<N, Command, Reply>>();
    shows_sync::<Book<N, Command, Reply>>();
}
