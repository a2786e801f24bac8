//! What C holds of a session: a pointer that owns it, or nothing.
ghost use Rattle.std.specs.Prelude.{◌≡◌, ◌≢◌, Option, None, Some};
ghost use Rattle.livingstone_c.specs.OwnedSession.{owned, held_coded};
ghost use Rattle.livingstone_c.specs.declared.talk.Talk.{Talk};

use crate::parts::Parts;
use crate::talk::Talk;
use std::alloc::Global;
use std::marker::Model;

/// What C holds of a session. It is closed or open; one whose pointer is null, as C makes it at first, is closed. C changes
/// nothing of an open one, makes no second one of it, and loses none.
#[repr(C)]
#[derive(Drop)]
pub struct SessionHandle {
    ptr: *mut u8,
    alloc: Global,
    pub ghost held: { Option Talk } by { held_coded },
}

impl Model for SessionHandle {
    ghost also_owns = { λ h. owned h.alloc h.ptr h.held };
}

impl SessionHandle {
    /// An open one.
    pub fn of(held: Box<Talk>) -> SessionHandle
        ensures { result.held ≡ Some held.value }
    {
        SessionHandle::of_parts(Parts::of(held))
    }

    /// A closed one.
    pub fn closed(alloc: Global) -> SessionHandle
        ensures { result.held ≡ None }
    {
        SessionHandle {
            ptr: std::ptr::null_mut(),
            alloc,
        }
    }

    /// Takes out what an open one holds.
    pub fn take(&mut self, alloc: Global) -> Box<Talk>
        requires { self.old.held ≢ None }
        ensures value { Some result.value ≡ self.old.held }
        ensures closed { self.new.held ≡ None }
    {
        std::mem::replace(self, SessionHandle::closed(alloc))
            .into_parts()
            .into_box()
    }

    fn of_parts(parts: Parts<Talk, Global>) -> SessionHandle
        ensures { result.held ≡ Some parts.value }
    {
        let Parts { ptr, alloc } = parts;
        SessionHandle {
            ptr: ptr as *mut u8,
            alloc,
        }
    }

    fn into_parts(self) -> Parts<Talk, Global>
        requires { self.held ≢ None }
        ensures { Some result.value ≡ self.held }
    {
        let SessionHandle { ptr, alloc } = self;
        Parts {
            ptr: ptr as *mut Talk,
            alloc,
        }
    }
}
