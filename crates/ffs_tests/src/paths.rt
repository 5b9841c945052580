//! Paths about the limit of 1,024 bytes.

use crate::compare::same;
use ffs_paths::{DirectoryPath, PathBuffer, PathText};

/// The text of the path that these names make, each put before those that come before it here.
fn written(names: &[&[u8]]) -> PathText {
    let mut path = PathBuffer::new();
    for name in names {
        path.push_front(name);
    }
    let mut text = PathText::new();
    path.put(&mut text);
    text
}

/// How many bytes that path has, and whether it begins with these.
fn begins(names: &[&[u8]], start: &[u8]) -> (usize, bool) {
    let text = written(names);
    (text.len(), text.as_slice().starts_with(start))
}

/// The longest name of an entry.
const LONG: &[u8] = &[b'a'; 255];

/// Names, how their path begins, and how many bytes it has: none, two short ones, and long ones
/// that have room, and that don't.
static PATHS: [(&[&[u8]], &[u8], usize); 5] = [
    (&[], b"/", 1),
    (&[b"group", b"etc"], b"/etc/group", 10),
    (&[LONG; 3], b"/a", 768),
    (&[LONG; 4], b"/a", 1024),
    (&[LONG; 5], b"?/a", 769),
];

#[test]
fn puts_names_before(rt: HostRuntime) {
    for &(names, start, written) in &PATHS {
        same(&rt, &begins(names, start), &(written, true));
    }
}

#[test]
fn cuts_what_has_no_room(rt: HostRuntime) {
    let more = written(&[LONG, LONG, LONG, LONG, LONG, b"b"]);
    same(&rt, &more.as_slice(), &written(&[LONG; 5]).as_slice());
}

#[test]
fn clears_names_that_were_cut(rt: HostRuntime) {
    let mut path = PathBuffer::new();
    for name in [LONG; 5] {
        path.push_front(name);
    }
    path.clear();
    path.push_front(b"etc");
    let mut text = PathText::new();
    path.put(&mut text);
    same(&rt, &text.as_slice(), &b"/etc".as_slice());
}

/// How many bytes the path of an entry has whose name is this many times `a`, and whether it begins
/// with these, in a directory that is reached or not and has this path.
fn entry_begins(reached: bool, names: &[&[u8]], length: usize, start: &[u8]) -> (usize, bool) {
    let mut path = DirectoryPath {
        reached,
        names: PathBuffer::new(),
    };
    for name in names {
        path.names.push_front(name);
    }
    let mut text = PathText::new();
    path.put_entry(&[b'a'; 1024][..length.min(1024)], &mut text);
    (text.len(), text.as_slice().starts_with(start))
}

/// Whether the directory is reached, its path, how long the name is, how the path of the entry
/// begins, and how many bytes it has.
static ROOMS: [(bool, &[&[u8]], usize, &[u8], usize); 5] = [
    (false, &[], 1022, b"?/a", 1024),
    (false, &[], 1023, b"?", 1),
    (true, &[], 1023, b"/a", 1024),
    (true, &[], 1024, b"?", 1),
    (true, &[b"b"], 1022, b"?/a", 1024),
];

#[test]
fn drops_a_name_that_has_no_room(rt: HostRuntime) {
    for &(reached, names, length, start, written) in &ROOMS {
        let found = entry_begins(reached, names, length, start);
        same(&rt, &found, &(written, true));
    }
}

/// The text of a path with a name more at its end, once by `put_with`, and once by `with_last`.
fn with_more(names: &[&[u8]], last: &[u8]) -> [PathText; 2] {
    let mut path = PathBuffer::new();
    for name in names {
        path.push_front(name);
    }
    let mut texts = [PathText::new(), PathText::new()];
    path.put_with(last, &mut texts[0]);
    path.with_last(&last[..last.len().min(255)])
        .put(&mut texts[1]);
    texts
}

#[test]
fn puts_a_name_after(rt: HostRuntime) {
    for text in with_more(&[b"group", b"etc"], b"a") {
        same(&rt, &text.as_slice(), &b"/etc/group/a".as_slice());
    }
    for text in with_more(&[LONG; 4], b"b") {
        let bytes = text.as_slice();
        same(&rt, &(text.len(), bytes.starts_with(b"?/a")), &(771, true));
        same(&rt, &bytes.ends_with(b"a/b"), &true);
    }
}

/// The path of an entry of a directory below one that is reached or not.
fn child_of(reached: bool) -> PathText {
    let mut path = DirectoryPath {
        reached,
        names: PathBuffer::new(),
    };
    path.names.push_front(b"etc");
    let mut text = PathText::new();
    path.child(b"a").put_entry(b"b", &mut text);
    text
}

#[test]
fn path_below_a_directory(rt: HostRuntime) {
    same(&rt, &child_of(true).as_slice(), &b"/etc/a/b".as_slice());
    same(&rt, &child_of(false).as_slice(), &b"?/b".as_slice());
}
