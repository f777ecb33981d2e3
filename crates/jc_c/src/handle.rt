//! A handle of a desk.
ghost use Rattle.std.specs.Prelude.{◌≡◌, true, false};
ghost use Rattle.jc_stripe.specs.DeskState.{DeskState};
ghost use Rattle.jc_c.specs.contracts.rooms.DeskRooms.{the_row as rooms_row};
ghost use Rattle.jc_c.specs.Handles.{handle_owns};

use crate::rooms::DeskRooms;
use jc_parcel::Loose;
use std::alloc::Global;
use std::marker::Model;

/// `jc_desk`: a handle of a desk, which C keeps. It must be all zeros at first. While it is open it owns the desk's box, and must
/// not be copied.
#[repr(C)]
#[derive(Drop)]
pub struct Handle {
    at: *mut u8,
    is_open: bool,
    ghost desk: { DeskState } by { rooms_row.coded },
}

impl Model for Handle {
    ghost also_owns = { λ h. handle_owns h.is_open h.at h.desk };
}

impl Handle {
    /// Whether it is open.
    pub(crate) fn is_open(&mut self) -> bool
        ensures { (result ≡ self.old.is_open) × (self.new ≡ self.old) }
    {
        self.is_open
    }

    /// Opens it over a desk.
    pub(crate) fn put(&mut self, rooms: Loose<DeskRooms, Global>)
        ensures { (self.new.is_open ≡ true) × (self.new.desk ≡ rooms.value) }
    {
        let Loose { at, alloc: _ } = rooms;
        self.at = at as *mut u8;
        self.is_open = true;
    }

    /// Closes it, and returns its desk.
    pub(crate) fn take(&mut self, alloc: Global) -> Loose<DeskRooms, Global>
        requires { self.old.is_open ≡ true }
        ensures { (self.new.is_open ≡ false) × (result.value ≡ self.old.desk) }
    {
        self.is_open = false;
        Loose {
            at: self.at as *mut DeskRooms,
            alloc,
        }
    }
}
