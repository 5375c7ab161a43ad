//! The processor, which interprets the events of a stream, and the handler whose methods it calls.

mod bounded_processor;
mod calls;
// cargo lacks: the adapter has it
mod clock;
pub mod laws;
mod long_processor;
// cargo lacks: the adapter has it
mod processor;
// cargo lacks: the adapter has it
mod std_sync_handler;
#[cfg(test)]
mod tests;
mod updates;

pub use bounded_processor::BoundedProcessor;
pub use clock::Clock;
pub use laws::Step;
pub use long_processor::LongProcessor;
pub use processor::Processor;
pub use std_sync_handler::StdSyncHandler;
// cargo lacks: src/lib.rs exports it
pub use vte_handler::{
    ByCall, Handler, HandlerCall, HandlerText, Hyperlink, TakeCall, TakeText, Timeout,
};
// cargo lacks: src/lib.rs exports it
pub use vte_types::{
    Attr, C0, CharsetIndex, ClearMode, Color, CursorShape, CursorStyle, KeyboardModes,
    KeyboardModesApplyBehavior, LineClearMode, Mode, ModifyOtherKeys, NamedColor, NamedMode,
    NamedPrivateMode, PrivateMode, Rgb, ScpCharPath, ScpUpdateMode, StandardCharset,
    TabulationClearMode, cursor_icon,
};
