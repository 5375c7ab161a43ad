//! What the examples answer of two streams.
use crate::command_text::last_text_length;
use crate::last_printed::Watcher;
use crate::logged::lines;
use crate::printed::prints;
use crate::session::Session;
use crate::{bell, page};
use std::test::Fail;

const STREAM: &[u8] = b"\x1b[1mz\xc3\xa9\x1b]0;t\x07";

#[test]
fn performers_answer(rt: HostRuntime) -> Result<(), Fail> {
    let (front, back) = STREAM.split_at(STREAM.len() / 2);
    assert!(rt; prints(&[front, back]));
    assert!(rt; !bell::rings(STREAM));
    let mut watcher = Watcher::new();
    watcher.read(front);
    watcher.read(back);
    assert!(rt; watcher.last() == Some('\u{e9}'));
    match last_text_length(rt.alloc(), STREAM) {
        Ok(length) => assert!(rt; length == 1),
        Err(_) => assert!(rt; false, "there is memory"),
    }
    let want = b"csi [1] - false 6d\nprint 007a\nprint 00e9\nosc true 2 30 74\n";
    match lines(rt.alloc(), STREAM) {
        Some(lines) => assert!(rt; lines.as_slice() == want.as_slice()),
        None => assert!(rt; false, "there is memory"),
    }
    Ok(())
}

#[test]
fn a_page_has_text_and_titles(rt: HostRuntime) -> Result<(), Fail> {
    let stream = b"a\x1b]2; title \x07\x1b[1mb\x07\n";
    let page = page::page_of(rt.alloc(), stream)?;
    assert!(rt; page.text.as_str() == "atitleb\n");
    assert!(rt; page.whole && page.rung);
    assert!(rt; page::rings(rt.alloc(), stream)?);
    Ok(())
}

#[test]
fn a_session_rings_when_its_update_ends(rt: HostRuntime) -> Result<(), Fail> {
    let mut session = Session::new(rt.alloc())?;
    session.read(b"\x1b[?2026h");
    session.read(b"a\x07");
    assert!(rt; !session.has_rung());
    session.end_update();
    assert!(rt; session.has_rung());
    Ok(())
}
