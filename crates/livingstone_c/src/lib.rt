//! The engine as a library for C: models, sessions over them one line at a time, and certificates.
//!
//! | file | what it is |
//! |---|---|
//! | `accepted` | a model that was accepted, compiled |
//! | `talk` | a session with the text of its last reply |
//! | `parts` | a box as its pointer, and back |
//! | `model_handle`, `session_handle` | what C holds: a pointer that owns one of these, or nothing |
//! | `models`, `sessions` | what C calls |
//!
//! Nothing is kept beside what C holds. A number tells how a call ended: 0 done, 1 refused or not valid, 2 memory was
//! wanting.
#![tactic(auto)]

mod accepted;
mod model_handle;
mod models;
mod parts;
mod session_handle;
mod sessions;
mod talk;

pub use accepted::Accepted;
pub use model_handle::ModelHandle;
pub use models::{Refusal, lv_check, lv_close_model, lv_open_model};
pub use parts::Parts;
pub use session_handle::SessionHandle;
pub use sessions::{lv_answer, lv_close_session, lv_copy_reply, lv_has_ended, lv_open_session};
pub use talk::Talk;
