// Why a store is not opened.
ghost use Rattle.std.specs.Prelude.{◌≡◌};
ghost use Rattle.store_openings.specs.Refusals.{IsAttaching, IsFor, IsForDelivery, IsRotating};

use aria_store::StoreRefused;
use serving::Delivery;

/// Why a store is not opened.
#[derive(Clone, Copy, Debug, PartialEq, Eq)]
pub enum NotOpened {
    /// There is no store.
    NoStore,
    /// The store is damaged: in this file, at this byte.
    Damaged { file: u8, at: u64 },
    /// The disk failed.
    NoDisk,
    /// There was no memory.
    NoMemory,
}

/// Why a store that was not attached is not opened. `Exists` and `Closed` are refusals of other calls, which
/// `Store::attach` never gives. No memory.
pub fn not_attached(refused: StoreRefused) -> NotOpened
    requires { IsAttaching refused }
    ensures { IsFor refused result }
{
    match refused {
        StoreRefused::Memory => NotOpened::NoMemory,
        StoreRefused::DiskFault => NotOpened::NoDisk,
        StoreRefused::NoStore => NotOpened::NoStore,
        StoreRefused::Damaged { file, at } => NotOpened::Damaged { file, at },
        StoreRefused::Exists | StoreRefused::Closed { .. } => unreachable!(),
    }
}

/// Why the next checkpoint was not written.
pub(crate) fn not_rotated(why: Delivery) -> NotOpened
    requires { IsRotating why }
    ensures { IsForDelivery why result }
{
    match why {
        Delivery::NoMemory => NotOpened::NoMemory,
        Delivery::NoDisk => NotOpened::NoDisk,
        Delivery::Told | Delivery::NoWrite => unreachable!(),
    }
}
