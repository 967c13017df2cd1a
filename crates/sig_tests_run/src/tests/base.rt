//! Places, texts and what is shown of a span.

use sig_base::{Place, Span, Text};
use std::test::Fail;

#[test]
fn packs_and_unpacks(rt: HostRuntime) {
    let place = Place { instant: 2, pos: 3 };
    assert_eq!(rt; place.pack(), 8_589_934_595);
    assert_eq!(rt; Place::unpack(8_589_934_595), place);
    assert!(rt; place < Place { instant: 3, pos: 0 });
}

#[test]
fn shows_line_and_column(rt: HostRuntime) -> Result<(), Fail> {
    let at = Span { line: 12, col: 3 };
    assert_eq!(rt; at.to_string(rt.alloc())?.as_str(), "12:3");
    Ok(())
}

#[test]
fn texts_keep_their_bytes(rt: HostRuntime) -> Result<(), Fail> {
    let text = Text::from_bytes(rt.alloc(), b"HELD")?;
    assert_eq!(rt; text.as_bytes(), b"HELD".as_slice());
    assert_eq!(rt; text.len(), 4);
    assert!(rt; text == Text::from([72, 69, 76, 68].to_vec(rt.alloc())?));
    assert!(rt; !text.is_empty());
    Ok(())
}
