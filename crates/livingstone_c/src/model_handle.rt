//! What C holds of a model: a pointer that owns it, or nothing.
ghost use Rattle.std.specs.Prelude.{◌≡◌, ◌≢◌, Option, None, Some};
ghost use Rattle.livingstone_c.specs.OwnedModel.{owned, held_coded};
ghost use Rattle.livingstone_c.specs.declared.accepted.Accepted.{Accepted};

use crate::accepted::Accepted;
use crate::parts::Parts;
use std::alloc::Global;
use std::marker::Model;

/// What C holds of a model. It is closed or open; one whose pointer is null, as C makes it at first, is closed. C changes
/// nothing of an open one, makes no second one of it, and loses none.
#[repr(C)]
#[derive(Drop)]
pub struct ModelHandle {
    ptr: *mut u8,
    alloc: Global,
    pub ghost held: { Option Accepted } by { held_coded },
}

impl Model for ModelHandle {
    ghost also_owns = { λ h. owned h.alloc h.ptr h.held };
}

impl ModelHandle {
    /// An open one.
    pub fn of(held: Box<Accepted>) -> ModelHandle
        ensures { result.held ≡ Some held.value }
    {
        ModelHandle::of_parts(Parts::of(held))
    }

    /// A closed one.
    pub fn closed(alloc: Global) -> ModelHandle
        ensures { result.held ≡ None }
    {
        ModelHandle {
            ptr: std::ptr::null_mut(),
            alloc,
        }
    }

    /// Takes out what an open one holds.
    pub fn take(&mut self, alloc: Global) -> Box<Accepted>
        requires { self.old.held ≢ None }
        ensures value { Some result.value ≡ self.old.held }
        ensures closed { self.new.held ≡ None }
    {
        std::mem::replace(self, ModelHandle::closed(alloc))
            .into_parts()
            .into_box()
    }

    fn of_parts(parts: Parts<Accepted, Global>) -> ModelHandle
        ensures { result.held ≡ Some parts.value }
    {
        let Parts { ptr, alloc } = parts;
        ModelHandle {
            ptr: ptr as *mut u8,
            alloc,
        }
    }

    fn into_parts(self) -> Parts<Accepted, Global>
        requires { self.held ≢ None }
        ensures { Some result.value ≡ self.held }
    {
        let ModelHandle { ptr, alloc } = self;
        Parts {
            ptr: ptr as *mut Accepted,
            alloc,
        }
    }
}
