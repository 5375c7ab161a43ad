//! Handlers: what a program can ask of a terminal, one method per request.
//!
//! A [`Handler`] has one method per call. Texts and bytes are borrowed for the duration of the
//! call. If only a few calls matter to you, [`ByCall`] passes each on as a [`HandlerCall`], and one
//! `match` picks those.
// proof: its ghost members say what value it stands for, and how each call changes that value.
#![tactic(auto)]

// cargo: pub(crate) use handler::owned;
// cargo: #[cfg(feature = "__own")]
mod by_call;
mod handler;
mod hyperlink;
mod timeout;

// cargo: #[cfg(feature = "__own")]
pub use by_call::{ByCall, HandlerCall, TakeCall, TakeText};
pub use handler::{Handler, HandlerText};
pub use hyperlink::Hyperlink;
pub use timeout::Timeout;
