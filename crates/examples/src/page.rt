//! A handler of a few calls: keeps the text of a stream and its titles, and whether it rings.
ghost use Rattle.std.specs.Prelude.{false, IfOk, ◌≡◌};
ghost use Rattle.examples.specs.Page.{rung_after};
ghost use Rattle.vte.specs.Calls.{calls};
ghost use Rattle.vte.specs.Handler.{after};
ghost use Rattle.vte.specs.Stream.{default_limit, events};

use std::alloc::{AllocError, Allocator, Global};
use std::time::Duration;
use vte::ansi::{ByCall, HandlerCall, Processor, TakeCall, Timeout};
use vte::laws;

/// The text so far, whether there was memory for all of it, and whether the terminal was to ring.
#[derive(Drop)]
pub struct Page {
    pub text: String,
    pub whole: bool,
    pub rung: bool,
}

impl Page {
    ghost use Rattle.std.specs.Prelude.{◌≡◌};

    fn keep(&mut self, added: Result<(), AllocError>)
        ensures { self.new.rung ≡ self.old.rung }
    {
        self.whole = self.whole && added.is_ok();
    }
}

impl TakeCall for Page {
    ghost use Rattle.std.specs.Prelude.{Bool};
    ghost use Rattle.examples.specs.Page.{rung_after};

    ghost Value = { Bool };

    ghost value_of = { λ page. page.rung };

    ghost step = { rung_after };

    fn take(&mut self, call: HandlerCall<'_>) {
        match call {
            HandlerCall::Input(c) => {
                let added = self.text.push(c);
                self.keep(added);
            }
            HandlerCall::Linefeed => {
                let added = self.text.push('\n');
                self.keep(added);
            }
            HandlerCall::SetTitle(Some(title)) => {
                let added = self.text.push_str(title);
                self.keep(added);
            }
            HandlerCall::Bell => self.rung = true,
            _ => {}
        }
    }
}

/// A timeout that waits until an update ends.
#[derive(Drop)]
pub(crate) struct UntilEnded {
    pub(crate) pending: bool,
}

impl Timeout for UntilEnded {
    ghost use Rattle.std.specs.Prelude.{Bool, false, true, ◌≡◌};

    ghost Value = { Bool };

    ghost value_of = { λ timeout. timeout.pending };

    ghost set = { λ _ _. true };

    ghost clear = { λ _. false };

    ghost allows = { λ pending answer. answer ≡ pending };

    fn set_timeout(&mut self, _duration: Duration) {
        self.pending = true;
    }

    fn clear_timeout(&mut self) {
        self.pending = false;
    }

    fn pending_timeout(&self) -> bool {
        self.pending
    }
}

/// A timeout that is never pending, so that no update is held back.
#[derive(Drop)]
struct NeverPending;

impl Timeout for NeverPending {
    ghost use Rattle.std.specs.Prelude.{false, ◌≡◌};

    ghost Value = { Unit {0} };

    ghost value_of = { λ _. tt };

    ghost set = { λ _ _. tt };

    ghost clear = { λ _. tt };

    ghost allows = { λ _ answer. answer ≡ false };

    fn set_timeout(&mut self, _duration: Duration) {}

    fn clear_timeout(&mut self) {}

    fn pending_timeout(&self) -> bool {
        false
    }
}

/// Returns whether the terminal of a stream is to ring.
///
/// # Errors
///
/// `AllocError` if there is no memory for the processor.
pub fn rings(alloc: Global, stream: &[u8]) -> Result<bool, AllocError>
    ensures { IfOk result
        (λ rung. rung ≡ after rung_after false (calls (events default_limit stream.now))) }
{
    laws::empty_stream();
    let mut page = ByCall(Page {
        text: String::new(alloc),
        whole: true,
        rung: false,
    });
    let Ok(mut processor) = Processor::new(alloc, NeverPending) else {
        return Err(AllocError);
    };
    processor.advance(&mut page, stream);
    Ok(page.0.rung)
}

/// Returns the page of a stream, with an update that isn't ended when the stream is.
///
/// # Errors
///
/// `AllocError` if there is no memory for the processor.
pub fn page_of(alloc: Global, stream: &[u8]) -> Result<Page, AllocError> {
    let mut handler = ByCall(Page {
        text: String::new(alloc),
        whole: true,
        rung: false,
    });
    let Ok(mut processor) = Processor::new(alloc, UntilEnded { pending: false }) else {
        return Err(AllocError);
    };
    processor.advance(&mut handler, stream);
    processor.stop_sync(&mut handler);
    Ok(handler.0)
}
