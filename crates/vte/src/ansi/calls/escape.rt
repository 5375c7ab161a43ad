//! The calls of executed bytes and of escape sequences.
ghost use Rattle.std.specs.Prelude.{Some, ◌≡◌};
ghost use Rattle.vte.specs.EscapeCalls.{charset_calls, charset_table, escape_calls, execute_calls};
ghost use Rattle.vte_handler.specs.Handler.{after};
ghost use Rattle.vte_types.specs.Words.{entry_of};

use vte_handler::Handler;
use vte_types::{CharsetIndex, StandardCharset};

/// Makes the calls of an executed byte.
// Three numbers for one jump by a table: a range is compared first.
#[allow(clippy::manual_range_patterns)]
pub(crate) fn perform_execute<H: Handler>(handler: &mut H, byte: u8)
    ensures { H.value_of handler.new ≡ after H.step (H.value_of handler.old) (execute_calls byte) }
{
    match byte {
        0x07 => handler.bell(),
        0x08 => handler.backspace(),
        0x09 => handler.put_tab(1),
        0x0a | 0x0b | 0x0c => handler.linefeed(),
        0x0d => handler.carriage_return(),
        0x0e => handler.set_active_charset(CharsetIndex::G1),
        0x0f => handler.set_active_charset(CharsetIndex::G0),
        0x1a => handler.substitute(),
        _ => {}
    }
}

/// Makes the calls of an escape sequence.
pub(crate) fn perform_escape<H: Handler>(handler: &mut H, intermediates: &[u8], byte: u8)
    ensures { H.value_of handler.new
        ≡ after H.step (H.value_of handler.old) (escape_calls intermediates.now byte) }
{
    match (byte, intermediates) {
        (b'B', [index]) => designate(handler, *index, StandardCharset::Ascii),
        (b'0', [index]) => {
            designate(
                handler,
                *index,
                StandardCharset::SpecialCharacterAndLineDrawing,
            );
        }
        (b'D', []) => handler.linefeed(),
        (b'E', []) => {
            handler.linefeed();
            handler.carriage_return();
        }
        (b'H', []) => handler.set_horizontal_tabstop(),
        (b'M', []) => handler.reverse_index(),
        (b'Z', []) => handler.identify_terminal(None),
        (b'c', []) => handler.reset_state(),
        (b'7', []) => handler.save_cursor_position(),
        (b'8', []) => handler.restore_cursor_position(),
        (b'=', []) => handler.set_keypad_application_mode(),
        (b'>', []) => handler.unset_keypad_application_mode(),
        (b'8', [b'#']) => handler.decaln(),
        _ => {}
    }
}

/// Configures the index that an intermediate designates.
fn designate<H: Handler>(handler: &mut H, intermediate: u8, charset: StandardCharset)
    ensures { H.value_of handler.new
        ≡ after H.step (H.value_of handler.old)
        (charset_calls (entry_of charset_table intermediate) (Some charset)) }
{
    match intermediate {
        b'(' => handler.configure_charset(CharsetIndex::G0, charset),
        b')' => handler.configure_charset(CharsetIndex::G1, charset),
        b'*' => handler.configure_charset(CharsetIndex::G2, charset),
        b'+' => handler.configure_charset(CharsetIndex::G3, charset),
        _ => {}
    }
}
