//! Copies of lists and texts.

use slate_ids::{ByteList, Listed, Text};

#[test]
fn lists_and_texts_have_copies(rt: HostRuntime) {
    let bytes = ByteList::copy_of(rt.alloc(), b"abc").expect(&rt, "memory");
    let copied = bytes.copy(rt.alloc()).expect(&rt, "memory");
    assert!(rt; copied.as_slice() == b"abc".as_slice());
    drop(copied);
    drop(bytes);
    let mut list = Listed::new(rt.alloc());
    list.push(3u64).expect(&rt, "memory");
    let copied = list.copy(rt.alloc()).expect(&rt, "memory");
    assert!(rt; copied.as_slice() == [3u64].as_slice());
    drop(copied);
    drop(list);
    let text = Text::copy_of(rt.alloc(), "abc").expect(&rt, "memory");
    let copied = text.copy(rt.alloc()).expect(&rt, "memory");
    assert!(rt; copied.as_str() == "abc");
    drop(copied);
    drop(text);
}
